//! How deep tokens nest.

ghost use Rattle.std.specs.Prelude.{◌≡◌, ◌+◌, ◌<◌, length, drop, IfOk};
ghost use Rattle.c_ast.specs.Nesting as N;
ghost use Rattle.c_nesting.specs.NestingViews.{count_of, counts_of, next_in, popped, IsWithin, AreWithin, most_grown};

use c_ast::{Keyword, Mark, Tok, Token};
use ib_base::Place;
use std::alloc::{AllocError, Global};

const MOST_NESTING: usize = 200;

/// A count, what `;` and `,` take it back to, its open `do`s, and whether a `(` directly behind a
/// name, `if`, `while` or `for` pushed it.
#[derive(Clone, Copy)]
pub struct Count {
    pub count: usize,
    pub base: usize,
    pub floor: usize,
    pub dos: usize,
    pub headed: bool,
}

/// The counts below the top.
#[derive(Drop)]
pub enum Below {
    Bottom,
    Over(Count, Box<Below>),
}

#[derive(Drop)]
pub struct Counts {
    pub top: Count,
    pub below: Below,
}

/// What may stand behind the end of a statement.
#[derive(Clone, Copy)]
pub enum Next {
    Else,
    While,
    Another,
}

fn next_kind(kind: &Tok) -> Next
    ensures { next_in result ≡ N.next_kind kind.now }
{
    match kind {
        Tok::Word(Keyword::Else) => Next::Else,
        Tok::Word(Keyword::While) => Next::While,
        _ => Next::Another,
    }
}

fn added(count: Count) -> Count
    requires { IsWithin most_grown (count_of count) }
    ensures { count_of result ≡ N.added (count_of count) }
{
    Count {
        count: count.count + 1,
        base: count.base,
        floor: count.floor,
        dos: count.dos,
        headed: count.headed,
    }
}

fn to_base(count: Count) -> Count
    ensures { count_of result ≡ N.to_base (count_of count) }
{
    Count {
        count: count.base,
        base: count.base,
        floor: count.base,
        dos: count.dos,
        headed: count.headed,
    }
}

fn to_floor(count: Count) -> Count
    ensures { count_of result ≡ N.to_floor (count_of count) }
{
    Count {
        count: count.floor,
        base: count.base,
        floor: count.floor,
        dos: count.dos,
        headed: count.headed,
    }
}

/// What `if`, `while` and `for` do.
fn headed_by(count: Count) -> Count
    requires { IsWithin most_grown (count_of count) }
    ensures { count_of result ≡ N.headed_by (count_of count) }
{
    let more = count.count + 1;
    Count {
        count: more,
        base: count.base,
        floor: more,
        dos: count.dos,
        headed: count.headed,
    }
}

fn opened_do(count: Count) -> Count
    requires { IsWithin most_grown (count_of count) }
    ensures { count_of result ≡ N.opened_do (count_of count) }
{
    let more = count.count + 1;
    Count {
        count: more,
        base: count.base,
        floor: more,
        dos: count.dos + 1,
        headed: count.headed,
    }
}

/// What `;` does.
fn ended(next: Next, count: Count) -> Count
    ensures { count_of result ≡ N.ended (next_in next) (count_of count) }
{
    match next {
        Next::Else => count,
        Next::While => {
            if 0 < count.dos {
                Count {
                    count: count.count,
                    base: count.base,
                    floor: count.floor,
                    dos: count.dos - 1,
                    headed: count.headed,
                }
            } else {
                to_base(count)
            }
        }
        Next::Another => to_base(count),
    }
}

fn push(alloc: Global, headed: bool, counts: Counts) -> Result<Counts, AllocError>
    requires { AreWithin most_grown (counts_of counts) }
    ensures { IfOk result (λ made. counts_of made ≡ N.push headed (counts_of counts)) }
{
    let Counts { top, below } = counts;
    let count = top.count + 1;
    let below = Below::Over(top, Box::new(alloc, below)?);
    Ok(Counts {
        top: Count {
            count,
            base: count,
            floor: count,
            dos: 0,
            headed,
        },
        below,
    })
}

/// `]` and `:`, which add one, and `)`, which adds one where no head has pushed what it pops.
fn pop(counts: Counts, adds: bool) -> Counts
    requires { AreWithin most_grown (counts_of counts) }
    ensures { counts_of result ≡ popped adds (counts_of counts) }
{
    let Counts { top, below } = counts;
    match below {
        Below::Bottom => Counts {
            top,
            below: Below::Bottom,
        },
        Below::Over(new, rest) => {
            let top = if adds || !top.headed { added(new) } else { new };
            Counts {
                top,
                below: Box::into_inner(rest),
            }
        }
    }
}

/// `}`
fn pop_brace(counts: Counts, next: Next) -> Counts
    ensures { counts_of result ≡ N.pop (λ old new. N.ended (next_in next) new) (counts_of counts) }
{
    let Counts { top, below } = counts;
    match below {
        Below::Bottom => Counts {
            top,
            below: Below::Bottom,
        },
        Below::Over(new, rest) => Counts {
            top: ended(next, new),
            below: Box::into_inner(rest),
        },
    }
}

fn after_mark(
    alloc: Global,
    mark: Mark,
    headed: bool,
    next: Next,
    counts: Counts,
) -> Result<Counts, AllocError>
    requires { AreWithin most_grown (counts_of counts) }
    ensures { IfOk result (λ made. counts_of made ≡ N.after_mark mark headed (next_in next) (counts_of counts)) }
{
    match mark {
        Mark::LeftParen => push(alloc, headed, counts),
        Mark::LeftBracket | Mark::LeftBrace | Mark::Question => push(alloc, false, counts),
        Mark::RightBracket | Mark::Colon => Ok(pop(counts, true)),
        Mark::RightParen => Ok(pop(counts, false)),
        Mark::RightBrace => Ok(pop_brace(counts, next)),
        Mark::Semicolon => {
            let Counts { top, below } = counts;
            Ok(Counts {
                top: ended(next, top),
                below,
            })
        }
        Mark::Comma => {
            let Counts { top, below } = counts;
            Ok(Counts {
                top: to_floor(top),
                below,
            })
        }
        _ => {
            let Counts { top, below } = counts;
            Ok(Counts {
                top: added(top),
                below,
            })
        }
    }
}

fn after_word(word: Keyword, counts: Counts) -> Counts
    requires { AreWithin most_grown (counts_of counts) }
    ensures { counts_of result ≡ N.after_word word (counts_of counts) }
{
    let Counts { top, below } = counts;
    let top = match word {
        Keyword::If | Keyword::While | Keyword::For => headed_by(top),
        Keyword::Do => opened_do(top),
        _ => top,
    };
    Counts { top, below }
}

/// The counts behind a token. `headed` says that a name, `if`, `while` or `for` stands directly before it.
fn after_kind(
    alloc: Global,
    kind: &Tok,
    headed: bool,
    next: Next,
    counts: Counts,
) -> Result<Counts, AllocError>
    requires { AreWithin most_grown (counts_of counts) }
    ensures { IfOk result (λ made. counts_of made ≡ N.after_kind kind.now headed (next_in next) (counts_of counts)) }
{
    match kind {
        Tok::Mark(mark) => after_mark(alloc, *mark, headed, next, counts),
        Tok::Word(word) => Ok(after_word(*word, counts)),
        _ => Ok(counts),
    }
}

/// Whether a `(` directly behind the token opens the parentheses of a call, a function or a statement's head.
fn heads(kind: &Tok) -> bool
    ensures { result ≡ N.heads kind.now }
{
    match kind {
        Tok::Name(_) => true,
        Tok::Word(Keyword::If) | Tok::Word(Keyword::While) | Tok::Word(Keyword::For) => true,
        _ => false,
    }
}

/// The place of the first token that nests deeper than 200, in time that is linear in the number of tokens.
pub fn too_deep(alloc: Global, tokens: &[Token]) -> Result<Option<Place>, AllocError>
    ensures { IfOk result (λ place. place ≡ N.too_deep tokens.now) }
{
    let mut counts = Counts {
        top: Count {
            count: 0,
            base: 0,
            floor: 0,
            dos: 0,
            headed: false,
        },
        below: Below::Bottom,
    };
    let mut headed = false;
    for (i, token) in tokens.iter().enumerate() {
        let next = next_at(tokens, i);
        counts = after_kind(alloc, &token.kind, headed, next, counts)?;
        if MOST_NESTING < counts.top.count {
            return Ok(Some(token.place));
        }
        headed = heads(&token.kind);
    }
    Ok(None)
}

/// What stands behind the token at this index.
fn next_at(tokens: &[Token], at: usize) -> Next
    requires { at < length tokens.now }
    ensures { next_in result ≡ N.next_of (drop (at + 1) tokens.now) }
{
    match tokens.get(at + 1) {
        Some(token) => next_kind(&token.kind),
        None => Next::Another,
    }
}
