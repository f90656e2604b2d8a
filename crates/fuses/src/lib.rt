// The part in the socket: its row of 64 one-time words.
#![tactic(auto)]

ghost use Rattle.std.specs.Prelude.{◌≡◌, not, ◌<◌, eqb, cond, Some, None};
ghost use Rattle.answers.specs.Outcomes.{outcome};
ghost use Rattle.answers.specs.Checks.{passed};
ghost use Rattle.fuses.specs.Row.{value_at, mark_at, keeps_rules, all_keep, lowest_bad, row_checked, burnt, word_stored, owns};

use answers::Refusal;
use octets::load;
use stores::store;

// The bytes of a row, whether or not its 64 records keep the rules.
pub type RowBytes = [u8; 512];

// A burnt word takes no store.
#[derive(Clone, Copy)]
pub struct AlreadyBurnt;

// A word's number comes from an address that `place_of` has checked, or from `lowest_bad`, which counts
// them all; it is a plain index here, since a type for it would wrap that one number and be taken apart in
// each function.

// Whether word k is among those of a mask.
pub fn is_own(mask: u64, k: usize) -> bool
    requires { k < 64 }
    ensures { result ≡ owns mask k }
{
    (mask >> k) % 2 == 1
}

// The value of word k.
pub fn value_of(row: &RowBytes, k: usize) -> u32
    requires { k < 64 }
    ensures { result ≡ value_at k row.now }
{
    load::<4>(row, 8 * k) as u32
}

fn is_burnt(row: &RowBytes, k: usize) -> bool
    requires { k < 64 }
    ensures { result ≡ not (eqb (mark_at k row.now) 0) }
{
    load::<1>(row, 8 * k + 4) != 0
}

// Word k burnt with v.
fn burn(row: &mut RowBytes, k: usize, v: u32)
    requires { k < 64 }
    ensures { row.new ≡ burnt k v row.old }
{
    store::<4>(row, 8 * k, u64::from(v));
    store::<1>(row, 8 * k + 4, 1);
}

// A store of v to word k. A blank word gets no pulse by 0, and stays blank.
#[tactic(auto, unfolding(crate::specs::Row::word_stored))]
pub fn store_word(row: &mut RowBytes, k: usize, v: u32) -> Result<(), AlreadyBurnt>
    requires { k < 64 }
    ensures { outcome result row.new ≡ word_stored k v row.old }
{
    if is_burnt(row, k) {
        return Err(AlreadyBurnt);
    }
    if v != 0 {
        burn(row, k, v);
    }
    Ok(())
}

// Whether the record of word k keeps the rules. Its upper half, the mark and three zero bytes, is 1 where it is burnt; a blank record is 0.
fn keeps_rules(row: &RowBytes, k: usize) -> bool
    requires { k < 64 }
    ensures { result ≡ keeps_rules k row.now }
{
    let value = load::<4>(row, 8 * k);
    let upper = load::<4>(row, 8 * k + 4);
    ((upper == 1) & (value != 0)) | ((upper == 0) & (value == 0))
}

// The lowest word whose record breaks the rules.
fn lowest_bad(row: &RowBytes) -> Option<u8>
    ensures { result ≡ cond (all_keep 64 row.now) None (Some (lowest_bad 64 row.now)) }
{
    for k in 0..64 {
        if !keeps_rules(row, usize::from(k)) {
            return Some(k);
        }
    }
    None
}

// Whether these bytes are a fuse row: 512 of them, and every record keeps the rules.
pub fn check_row(row: &[u8]) -> Result<(), Refusal>
    ensures { result ≡ row_checked row.now passed }
{
    let Some(records) = row.as_array() else {
        return Err(Refusal::RowLength);
    };
    match lowest_bad(records) {
        None => Ok(()),
        Some(word) => Err(Refusal::RowRecord(word)),
    }
}
