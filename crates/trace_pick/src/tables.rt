ghost use Rattle.std.specs.Prelude.{◌≡◌, false, slice_index_or};
ghost use Rattle.trace_pick.specs.Settled.{label_at, weight_at, goes_before, earlier, unseen_before};

/// The label that a table has for a label.
pub(crate) fn label_at(table: &[Option<u32>], label: u32) -> Option<u32>
    ensures { result ≡ label_at table.now label }
{
    match sqlite_items::at(table, label as usize) {
        None => None,
        Some(found) => *found,
    }
}

fn is_seen(seen: &[bool], label: u32) -> bool
    ensures { result ≡ slice_index_or seen.now label false }
{
    match sqlite_items::at(seen, label as usize) {
        None => false,
        Some(seen) => *seen,
    }
}

fn weight_at(weights: &[u128], label: u32) -> u128
    ensures { result ≡ weight_at weights.now label }
{
    match sqlite_items::at(weights, label as usize) {
        None => 0,
        Some(weight) => *weight,
    }
}

fn goes_before(weights: &[u128], label: u32, other: u32) -> bool
    ensures { result ≡ goes_before weights.now label other }
{
    let own = weight_at(weights, label);
    let others = weight_at(weights, other);
    others < own || (others == own && label < other)
}

/// The one of two blocks before which a cycle would be cut.
pub(crate) fn earlier(weights: &[u128], label: u32, other: u32) -> u32
    ensures { result ≡ earlier weights.now label other }
{
    if goes_before(weights, label, other) {
        label
    } else {
        other
    }
}

/// The block before one, if no walk has passed it yet.
pub(crate) fn unseen_before(prior: &[Option<u32>], seen: &[bool], label: u32) -> Option<u32>
    ensures { result ≡ unseen_before prior.now seen.now label }
{
    match label_at(prior, label) {
        None => None,
        Some(before) => {
            if is_seen(seen, before) {
                None
            } else {
                Some(before)
            }
        }
    }
}
