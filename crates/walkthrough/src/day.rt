// The day, part by part.
use crate::counter::Counter;
use crate::pricing::price_both;
use crate::print::Hex;
use answers::call::{Call, Caller, Format, Query, Read, Reader, Reset, Step};
use answers::tally::Tally;
use entry::Entry;
use snapshot::fresh::fresh_head;
use std::io;

// State 7 with three offers: 5 at 1200, 9 at 700, 12 at 2500.
const IMAGE: [u8; 30] =
    *b"\0\0\0\x07\0\x03\x80\0\0\x05\0\0\x04\xb0\x80\0\0\x09\0\0\x02\xbc\x80\0\0\x0c\0\0\x09\xc4";

// The desk, with its first slot.
const DESK_SLOT: Reader = Reader {
    caller: Caller::Desk,
    slot: 0,
};

// Unused memory, the image in its bytes, and a read set that names its offers.
fn unused() -> Counter {
    let tally = Tally {
        committed: 0,
        rolled_back: 0,
        flushed: 0,
    };
    Counter {
        table: [0; 4],
        journal: [0; 16],
        reads: [Entry::none(5), Entry::none(7), Entry::none(9)],
        bytes: IMAGE,
        head: fresh_head(0, 0, 0),
        tally,
    }
}

fn load(rt: &impl Print) -> io::Result<Counter> {
    print!(rt;
        "\n\nMorning: last night's image is loaded: the number of a state, how many offers it has, and each with its price.\
        \n  image{}",
        Hex(&IMAGE)
    )?;
    let mut counter = unused();
    counter.ask(rt, "\n  load", Call::Reset(Reset::Load(0, Format::Image)))?;
    counter.quote(rt, 7)?;
    Ok(counter)
}

// A read at state 7 that is to serve a state which does not exist yet.
fn issue(rt: &impl Print, counter: &mut Counter) -> io::Result<()> {
    counter.read(
        rt,
        "\n\nAn early read: orders will come for a state that is not there yet, and reading starts now.\
        \n  issue in slot 0",
        Call::Read(Read::Issue(DESK_SLOT)),
    )
}

// States 8 and 9; each is quoted as it is.
fn feed(rt: &impl Print, counter: &mut Counter) -> io::Result<()> {
    print!(rt; "\n\nThe feed: two lists of changes come in.")?;
    counter.commit(rt, [Entry::put(5, 1100), Entry::put(7, 900)])?;
    counter.commit(rt, [Entry::none(9), Entry::put(12, 2400)])?;
    counter.quote(rt, 8)?;
    counter.quote(rt, 9)
}

// The read serves state 9, and state 10 has the changes of the orders that were priced on it.
fn price(rt: &impl Print, counter: &mut Counter) -> io::Result<()> {
    let forward = Call::Read(Read::Forward(DESK_SLOT, 9));
    counter.read(
        rt,
        "\n\nOrders: the early read is brought to state 9 and priced on. One bad order refuses its batch.\
        \n  forward slot 0 to state 9",
        forward,
    )?;
    let changes = price_both(rt, &counter.reads)?;
    counter.commit(rt, changes)
}

// The first state 11 was a slip; it is taken back and comes again. A list that falls is refused.
fn correct(rt: &impl Print, counter: &mut Counter) -> io::Result<()> {
    print!(rt;
        "\n\nA correction: a list with wrong prices is taken back, and the right one comes in."
    )?;
    let five = Entry::put(5, 950);
    let seven = Entry::put(7, 850);
    counter.commit(rt, [Entry::put(5, 9), Entry::put(7, 8)])?;
    counter.quote(rt, 11)?;
    counter.roll_back(rt, 10)?;
    counter.commit(rt, [seven, five])?;
    counter.commit(rt, [five, seven])?;
    counter.quote(rt, 11)
}

// The steps go into the table, and can be taken back no more.
fn flush(rt: &impl Print, counter: &mut Counter) -> io::Result<()> {
    counter.ask(
        rt,
        "\n\nEvening: a flush makes state 11 the checkpoint, and its image is written for tomorrow.\
        \n  flush to state 11",
        Call::Step(Step::Flush(11)),
    )?;
    counter.quote(rt, 11)?;
    counter.roll_back(rt, 10)
}

// The image of the newest state, and what was counted since the load.
fn write(rt: &impl Print, counter: &mut Counter) -> io::Result<()> {
    counter.ask(
        rt,
        "\n  write the image",
        Call::Ask(Query::Write(Format::Image)),
    )?;
    print!(rt; "\n  image{}", Hex(&counter.bytes))?;
    let Tally {
        committed,
        rolled_back,
        flushed,
    } = counter.tally;
    print!(rt;
        "\n  counted today: lists committed {committed}, rolled back {rolled_back}, flushed {flushed}\n"
    )
}

pub(crate) fn day(rt: &impl Print) -> io::Result<()> {
    print!(rt;
        "A day at the counter: the price unit takes a feed of price changes and quotes the prices of seats.\n\
        An offer is a seat. Prices are in minor units, as the unit has them: 1200 is 12.00.\n\
        Each list of changes makes the next state. States from the checkpoint to the newest are quoted.\n\
        A quote says how fresh it is: since which state, or by the table, which holds the prices at the checkpoint."
    )?;
    let mut counter = load(rt)?;
    issue(rt, &mut counter)?;
    feed(rt, &mut counter)?;
    price(rt, &mut counter)?;
    correct(rt, &mut counter)?;
    flush(rt, &mut counter)?;
    write(rt, &mut counter)
}
