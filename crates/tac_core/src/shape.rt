ghost use Rattle.std.specs.Prelude.{◌≡◌, ◌≢◌, ◌<◌, ◌≤◌, ◌||◌, ◌↔◌, IsTrue, bytes_eq, length};
ghost use Rattle.tac_core.specs.Program.{main_name};
ghost use Rattle.std.specs.List.{All, Any};
ghost use Rattle.tac_core.specs.Rules.{is_letter, is_digit, IsName, IsGoodBlock, AreDistinct, IsGoodFunc, IsMain, KeepsRules};

use crate::code::{Block, TacFunc};
use crate::names::names_differ;
use crate::rules::{are_registers, is_good_end, is_good_op};

const MOST_OPS: usize = 512;

const MOST_PARAMS: usize = 8;

const MOST_FRAME: u32 = 262_144;

const MOST_IMAGE: usize = 524_288;

fn is_good_block(regs: u32, blocks: usize, places: usize, funcs: &[TacFunc], block: &Block) -> bool
    ensures { IsTrue result ↔ IsGoodBlock regs blocks places funcs.now block.now }
{
    block.ops.len() <= MOST_OPS
        && (block.end_stmt as usize) < places
        && block
            .ops
            .as_slice()
            .iter()
            .all(|op| is_good_op(regs, places, op))
        && is_good_end(regs, blocks, funcs, &block.end)
}

fn is_letter(byte: u8) -> bool
    ensures { result ≡ is_letter byte }
{
    (byte >= b'A' && byte <= b'Z') || (byte >= b'a' && byte <= b'z') || byte == b'_'
}

fn is_digit(byte: u8) -> bool
    ensures { result ≡ is_digit byte }
{
    byte >= b'0' && byte <= b'9'
}

fn are_name_bytes(bytes: &[u8]) -> bool
    ensures { IsTrue result ↔ All (λ c. IsTrue (is_letter c || is_digit c)) bytes.now }
{
    bytes.iter().all(|byte| is_letter(*byte) || is_digit(*byte))
}

/// Whether the bytes are a name: a letter or `_`, then letters, digits and `_`.
pub fn is_name(bytes: &[u8]) -> bool
    ensures { IsTrue result ↔ IsName bytes.now }
{
    match bytes {
        [] => false,
        [first, rest @ ..] => is_letter(*first) && are_name_bytes(rest),
    }
}

fn is_new_register(earlier: &[u32], register: u32) -> bool
    ensures { IsTrue result ↔ All (λ r. r ≢ register) earlier.now }
{
    earlier.iter().all(|other| *other != register)
}

fn are_distinct(params: &[u32]) -> bool
    ensures { IsTrue result ↔ AreDistinct params.now }
{
    for (i, param) in params.iter().enumerate() {
        if !is_new_register(&params[..i], *param) {
            return false;
        }
    }
    true
}

fn has_good_params(func: &TacFunc) -> bool
    ensures { IsTrue result ↔ ((length func.now.params ≤ 8) × All (λ r. r < func.now.regs) func.now.params × AreDistinct func.now.params) }
{
    let params = func.params.as_slice();
    params.len() <= MOST_PARAMS && are_registers(func.regs, params) && are_distinct(params)
}

fn has_good_blocks(places: usize, funcs: &[TacFunc], func: &TacFunc) -> bool
    ensures { IsTrue result ↔ ((0 < length func.now.blocks) × All (IsGoodBlock func.now.regs (length func.now.blocks) places funcs.now) func.now.blocks) }
{
    let blocks = func.blocks.as_slice();
    let count = blocks.len();
    0 < count && blocks.iter().all(|block| is_good_block(func.regs, count, places, funcs, block))
}

fn is_good_func(places: usize, funcs: &[TacFunc], func: &TacFunc) -> bool
    ensures { IsTrue result ↔ IsGoodFunc places funcs.now func.now }
{
    is_name(func.name.list())
        && has_good_params(func)
        && func.frame <= MOST_FRAME
        && func.frame % 16 == 0
        && has_good_blocks(places, funcs, func)
}

pub fn is_named_main(func: &TacFunc) -> bool
    ensures { result ≡ bytes_eq main_name func.now.name }
{
    "main".as_bytes() == func.name.list()
}

fn is_main(func: &TacFunc) -> bool
    ensures { IsTrue result ↔ IsMain func.now }
{
    func.name.is(b"main") && func.params.is_empty()
}

fn has_main(funcs: &[TacFunc]) -> bool
    ensures { IsTrue result ↔ Any IsMain funcs.now }
{
    funcs.iter().any(is_main)
}

fn keeps_other_rules(image: usize, places: usize, funcs: &[TacFunc]) -> bool
    ensures { IsTrue result ↔ ((image ≤ 524288) × All (IsGoodFunc places funcs.now) funcs.now × Any IsMain funcs.now) }
{
    image <= MOST_IMAGE
        && funcs.iter().all(|func| is_good_func(places, funcs, func))
        && has_main(funcs)
}

/// Whether a program with so many bytes and so many places and these functions keeps every rule. The functions come back
/// as they were.
pub fn keeps_rules(image: usize, places: usize, funcs: &mut [TacFunc]) -> bool
    ensures answer { IsTrue result ↔ KeepsRules image places funcs.old }
    ensures kept { funcs.new ≡ funcs.old }
{
    keeps_other_rules(image, places, funcs) && names_differ(funcs)
}
