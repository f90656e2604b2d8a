// Loads and stores: where the access lies, and what it does there.
#![tactic(auto)]

ghost use Rattle.std.specs.Prelude.{◌≡◌, ◌+◌, ◌≤◌, ◌<◌, length};
ghost use Rattle.octets.specs.Bytes.{load};
ghost use Rattle.octets.specs.Widths.{width_bytes};
ghost use Rattle.answers.specs.Outcomes.{outcome};
ghost use Rattle.answers.specs.Stops.{cause};
ghost use Rattle.answers.specs.declared.Stop.TheVariants as S;
ghost use Rattle.boards.specs.Boards.{board};
ghost use Rattle.access.specs.declared.Effect.TheVariants as E;
ghost use Rattle.access.specs.Accesses.{load_width, extended, loaded_from_row, loaded, on_to, store_width, stored_in_row, stored};

use answers::{Cause, Stop};
use fuses::{AlreadyBurnt, RowBytes, is_own, store_word, value_of};
use isa::{LoadOp, Reg, StoreOp};
use octets::Width;
use place::{Place, place_of};
use stores::store_of;
use word::sign_extend;

// What an instruction does: a register gets a value and the next instruction is at pc, or the run stops.
// No `Result`: a stop is no failure, it is how a recipe ends, and is applied to the state like any effect.
#[derive(Clone, Copy)]
pub enum Effect {
    Next { rd: Reg, value: u32, pc: u32 },
    Halt(Cause),
}

fn load_width(op: LoadOp) -> Width
    ensures { result ≡ load_width op }
{
    match op {
        LoadOp::Lb | LoadOp::Lbu => Width::One,
        LoadOp::Lh | LoadOp::Lhu => Width::Two,
        LoadOp::Lw => Width::Four,
    }
}

fn store_width(op: StoreOp) -> Width
    ensures { result ≡ store_width op }
{
    match op {
        StoreOp::Sb => Width::One,
        StoreOp::Sh => Width::Two,
        StoreOp::Sw => Width::Four,
    }
}

// What a register gets of the bytes of memory from at.
fn extended_load(op: LoadOp, mem: &[u8], at: usize) -> u32
    requires { at + width_bytes (load_width op) ≤ length mem.now }
    ensures { result ≡ extended op (load (width_bytes (load_width op)) at mem.now) }
{
    match op {
        LoadOp::Lb => sign_extend(octets::load::<1>(mem, at) as u32, 8),
        LoadOp::Lh => sign_extend(octets::load::<2>(mem, at) as u32, 16),
        LoadOp::Lw => octets::load::<4>(mem, at) as u32,
        LoadOp::Lbu => octets::load::<1>(mem, at) as u32,
        LoadOp::Lhu => octets::load::<2>(mem, at) as u32,
    }
}

// At a word that is not its own a run stops.
fn not_owned(address: u32) -> Effect
    ensures { result ≡ E.Halt (cause S.NotOwned address) }
{
    Effect::Halt(Cause::new(Stop::NotOwned, address))
}

// A load into rd from word k of the row, which stands at an address.
#[tactic(auto, unfolding(crate::specs::Accesses::loaded_from_row))]
fn load_of_row(own: u64, row: &RowBytes, k: usize, rd: Reg, address: u32, next: u32) -> Effect
    requires { k < 64 }
    ensures { result ≡ loaded_from_row own k rd address next row.now }
{
    if !is_own(own, k) {
        return not_owned(address);
    }
    Effect::Next {
        rd,
        value: value_of(row, k),
        pc: next,
    }
}

// A load into rd from an address, before the instruction at next. Of the row's words it may load its
// own.
pub fn load(
    own: u64,
    op: LoadOp,
    rd: Reg,
    address: u32,
    next: u32,
    mem: &[u8],
    row: &RowBytes,
) -> Effect
    ensures { result ≡ loaded own op rd address next (board mem.now row.now) }
{
    let place = place_of(address, load_width(op), mem.len());
    match place {
        Place::Memory(at) => Effect::Next {
            rd,
            value: extended_load(op, mem, at),
            pc: next,
        },
        Place::Fuse(k) => load_of_row(own, row, k, rd, address, next),
        Place::Misaligned => Effect::Halt(Cause::new(Stop::LoadMisaligned, address)),
        Place::Outside => Effect::Halt(Cause::new(Stop::LoadOutside, address)),
    }
}

// A store that is done writes no register, and the next instruction is at next.
fn on_to(next: u32) -> Effect
    ensures { result ≡ on_to next }
{
    Effect::Next {
        rd: Reg::ZERO,
        value: 0,
        pc: next,
    }
}

// A store of v to word k of the row, which stands at an address.
#[tactic(auto, unfolding(crate::specs::Accesses::stored_in_row))]
fn store_in_row(own: u64, row: &mut RowBytes, k: usize, v: u32, address: u32, next: u32) -> Effect
    requires { k < 64 }
    ensures { outcome result row.new ≡ stored_in_row own k v address next row.old }
{
    if !is_own(own, k) {
        return not_owned(address);
    }
    match store_word(row, k, v) {
        Ok(()) => on_to(next),
        Err(AlreadyBurnt) => Effect::Halt(Cause::new(Stop::AlreadyBurnt, address)),
    }
}

// A store of v at an address, before the instruction at next. Of the row's words it may store to its
// own.
pub fn store(
    own: u64,
    op: StoreOp,
    v: u32,
    address: u32,
    next: u32,
    mem: &mut [u8],
    row: &mut RowBytes,
) -> Effect
    ensures { outcome result (board mem.new row.new) ≡ stored own op v address next (board mem.old row.old) }
{
    let width = store_width(op);
    let place = place_of(address, width, mem.len());
    match place {
        Place::Memory(at) => {
            store_of(mem, at, width, v);
            on_to(next)
        }
        Place::Fuse(k) => store_in_row(own, row, k, v, address, next),
        Place::Misaligned => Effect::Halt(Cause::new(Stop::StoreMisaligned, address)),
        Place::Outside => Effect::Halt(Cause::new(Stop::StoreOutside, address)),
    }
}
