//! What a typed program keeps: its values lie in the widths that its nodes tell, its variables are
//! where they are said to be, and what it names is there.
#![tactic(auto)]
