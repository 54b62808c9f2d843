// Each C function keeps the promise that the runs of the conditions are made of (conditions/specs/CCalls.antt), for the call that is
// written out here. The functions here only call them, as the crate `cechnuol` has them: so the theorems are about those very functions,
// and a contract that says less, or speaks of another call, is noticed. The exports of `cechnuol_c` call them too and have their clauses.
#![tactic(auto)]

ghost use Rattle.std.specs.Prelude.{cond, eqb};
ghost use Rattle.answers.specs.declared.call.Call.TheVariants.{Reset, Step, Read};
ghost use Rattle.answers.specs.declared.call.Caller.TheVariants.{Desk, Foyer};
ghost use Rattle.answers.specs.declared.call.Format.TheVariants.{Image, Sheet};
ghost use Rattle.answers.specs.declared.call.Query.TheVariants.{LookUp, Write, WriteState};
ghost use Rattle.answers.specs.declared.call.Read.TheVariants.{Issue, Forward, Release};
ghost use Rattle.answers.specs.declared.call.Reset.TheVariants.{Clear, Load, Restart};
ghost use Rattle.answers.specs.declared.call.Step.TheVariants.{Commit, RollBack, Flush};
ghost use Rattle.conditions.specs.CCalls.{StoreKeeps, WordsKeep, BytesKeep, QueryKeeps, LookUpKeeps, PricesC};

use cechnuol::pricing::cechnuol_price_batch;
use cechnuol::store::{
    cechnuol_clear, cechnuol_commit, cechnuol_flush, cechnuol_forward, cechnuol_issue,
    cechnuol_load, cechnuol_load_sheet, cechnuol_look_up, cechnuol_release, cechnuol_restart,
    cechnuol_roll_back, cechnuol_write_image, cechnuol_write_sheet, cechnuol_write_state_image,
    cechnuol_write_state_sheet,
};
use head_words::HEAD_WORDS;
use lent::storing::TALLY_WORDS;

// `cechnuol_clear`.
pub fn clear(
    table: &mut [u64],
    journal: &mut [u64],
    head: &mut [u64; HEAD_WORDS],
    tally: &mut [u64; TALLY_WORDS],
    depth: u32,
) -> u64
    ensures { StoreKeeps (Reset (Clear depth))
        table.old journal.old head.old tally.old
        result table.new journal.new head.new tally.new }
{
    cechnuol_clear(table, journal, head, tally, depth)
}

// `cechnuol_load`.
pub fn load(
    table: &mut [u64],
    journal: &mut [u64],
    head: &mut [u64; HEAD_WORDS],
    tally: &mut [u64; TALLY_WORDS],
    depth: u32,
    bytes: &[u8],
) -> u64
    ensures { BytesKeep (Reset (Load depth Image))
        table.old journal.old head.old tally.old
        bytes.now result table.new journal.new head.new tally.new bytes.now }
{
    cechnuol_load(table, journal, head, tally, depth, bytes)
}

// `cechnuol_load_sheet`.
pub fn load_sheet(
    table: &mut [u64],
    journal: &mut [u64],
    head: &mut [u64; HEAD_WORDS],
    tally: &mut [u64; TALLY_WORDS],
    depth: u32,
    bytes: &[u8],
) -> u64
    ensures { BytesKeep (Reset (Load depth Sheet))
        table.old journal.old head.old tally.old
        bytes.now result table.new journal.new head.new tally.new bytes.now }
{
    cechnuol_load_sheet(table, journal, head, tally, depth, bytes)
}

// `cechnuol_restart`.
pub fn restart(
    table: &mut [u64],
    journal: &mut [u64],
    head: &mut [u64; HEAD_WORDS],
    tally: &mut [u64; TALLY_WORDS],
    bytes: &mut [u8],
) -> u64
    ensures { BytesKeep (Reset Restart)
        table.old journal.old head.old tally.old
        bytes.old result table.new journal.new head.new tally.new bytes.new }
{
    cechnuol_restart(table, journal, head, tally, bytes)
}

// `cechnuol_commit`.
pub fn commit(
    table: &mut [u64],
    journal: &mut [u64],
    head: &mut [u64; HEAD_WORDS],
    tally: &mut [u64; TALLY_WORDS],
    words: &[u64],
) -> u64
    ensures { WordsKeep (Step Commit)
        table.old journal.old head.old tally.old
        words.now result table.new journal.new head.new tally.new words.now }
{
    cechnuol_commit(table, journal, head, tally, words)
}

// `cechnuol_roll_back`.
pub fn roll_back(
    table: &mut [u64],
    journal: &mut [u64],
    head: &mut [u64; HEAD_WORDS],
    tally: &mut [u64; TALLY_WORDS],
    state: u32,
) -> u64
    ensures { StoreKeeps (Step (RollBack state))
        table.old journal.old head.old tally.old
        result table.new journal.new head.new tally.new }
{
    cechnuol_roll_back(table, journal, head, tally, state)
}

// `cechnuol_flush`.
pub fn flush(
    table: &mut [u64],
    journal: &mut [u64],
    head: &mut [u64; HEAD_WORDS],
    tally: &mut [u64; TALLY_WORDS],
    state: u32,
) -> u64
    ensures { StoreKeeps (Step (Flush state))
        table.old journal.old head.old tally.old
        result table.new journal.new head.new tally.new }
{
    cechnuol_flush(table, journal, head, tally, state)
}

// `cechnuol_issue`.
pub fn issue(
    table: &mut [u64],
    journal: &mut [u64],
    head: &mut [u64; HEAD_WORDS],
    tally: &mut [u64; TALLY_WORDS],
    caller: u32,
    slot: usize,
    words: &mut [u64],
) -> u64
    ensures { WordsKeep (Read (Issue (record { caller = cond (eqb caller 0) Desk Foyer; slot = slot })))
        table.old journal.old head.old tally.old
        words.old result table.new journal.new head.new tally.new words.new }
{
    cechnuol_issue(table, journal, head, tally, caller, slot, words)
}

// `cechnuol_forward`.
pub fn forward(
    table: &mut [u64],
    journal: &mut [u64],
    head: &mut [u64; HEAD_WORDS],
    tally: &mut [u64; TALLY_WORDS],
    caller: u32,
    slot: usize,
    state: u32,
    words: &mut [u64],
) -> u64
    ensures { WordsKeep (Read (Forward (record { caller = cond (eqb caller 0) Desk Foyer; slot = slot }) state))
        table.old journal.old head.old tally.old
        words.old result table.new journal.new head.new tally.new words.new }
{
    cechnuol_forward(table, journal, head, tally, caller, slot, state, words)
}

// `cechnuol_release`.
pub fn release(
    table: &mut [u64],
    journal: &mut [u64],
    head: &mut [u64; HEAD_WORDS],
    tally: &mut [u64; TALLY_WORDS],
    caller: u32,
    slot: usize,
) -> u64
    ensures { StoreKeeps (Read (Release (record { caller = cond (eqb caller 0) Desk Foyer; slot = slot })))
        table.old journal.old head.old tally.old
        result table.new journal.new head.new tally.new }
{
    cechnuol_release(table, journal, head, tally, caller, slot)
}

// `cechnuol_look_up`.
pub fn look_up(
    table: &[u64],
    journal: &[u64],
    head: &[u64; HEAD_WORDS],
    caller: u32,
    offer: u32,
    state: u32,
    price: &mut u64,
    since: &mut u64,
) -> u64
    ensures { LookUpKeeps (LookUp (record { caller = cond (eqb caller 0) Desk Foyer; offer = offer; state = state }))
        table.now journal.now head.now
        result price.old price.new since.old since.new }
{
    cechnuol_look_up(table, journal, head, caller, offer, state, price, since)
}

// `cechnuol_write_image`.
pub fn write_image(
    table: &[u64],
    journal: &[u64],
    head: &[u64; HEAD_WORDS],
    bytes: &mut [u8],
    count: &mut u64,
) -> u64
    ensures { QueryKeeps (Write Image)
        table.now journal.now head.now
        bytes.old result count.old count.new bytes.new }
{
    cechnuol_write_image(table, journal, head, bytes, count)
}

// `cechnuol_write_state_image`.
pub fn write_state_image(
    table: &[u64],
    journal: &[u64],
    head: &[u64; HEAD_WORDS],
    state: u32,
    bytes: &mut [u8],
    count: &mut u64,
) -> u64
    ensures { QueryKeeps (WriteState Image state)
        table.now journal.now head.now
        bytes.old result count.old count.new bytes.new }
{
    cechnuol_write_state_image(table, journal, head, state, bytes, count)
}

// `cechnuol_write_sheet`.
pub fn write_sheet(
    table: &[u64],
    journal: &[u64],
    head: &[u64; HEAD_WORDS],
    bytes: &mut [u8],
    count: &mut u64,
) -> u64
    ensures { QueryKeeps (Write Sheet)
        table.now journal.now head.now
        bytes.old result count.old count.new bytes.new }
{
    cechnuol_write_sheet(table, journal, head, bytes, count)
}

// `cechnuol_write_state_sheet`.
pub fn write_state_sheet(
    table: &[u64],
    journal: &[u64],
    head: &[u64; HEAD_WORDS],
    state: u32,
    bytes: &mut [u8],
    count: &mut u64,
) -> u64
    ensures { QueryKeeps (WriteState Sheet state)
        table.now journal.now head.now
        bytes.old result count.old count.new bytes.new }
{
    cechnuol_write_state_sheet(table, journal, head, state, bytes, count)
}

// `cechnuol_price_batch`.
pub fn price_batch(reads: &[u64], orders: &[u64], out: &mut [u64], count: &mut u64) -> u64
    ensures { PricesC reads.now orders.now out.old result out.new
        count.old count.new }
{
    cechnuol_price_batch(reads, orders, out, count)
}
