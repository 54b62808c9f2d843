// The counter's store, and the calls on it through `unit::serve`, each told in a line.
ghost use Rattle.calls.specs.Lent.{lent};
ghost use Rattle.unit.specs.Serve.{Replies};

use crate::print::{Entries, Quoted, Told};
use answers::answer::Answer;
use answers::call::{Call, Caller, LookUp, Query, Step};
use answers::ground::Ground;
use answers::tally::Tally;
use layout::head::Head;
use std::{fmt, io};
use unit::serve::serve;

// What the counter hands from one call to the next: the memory of the store, a read set, the bytes of an image, the head
// and the tally.
#[derive(Drop)]
pub(crate) struct Counter {
    pub(crate) table: [u64; 4],
    pub(crate) journal: [u64; 16],
    pub(crate) reads: [u64; 3],
    pub(crate) bytes: [u8; 30],
    pub(crate) head: Head,
    pub(crate) tally: Tally,
}

impl Counter {
    // Makes a call with these words, and gives what it answers.
    fn make(&mut self, call: Call, words: &mut [u64]) -> Result<Answer, Ground>
        ensures { Replies self.old.tally
            (lent self.old.table self.old.journal words.old self.old.bytes self.old.head) call
            (record { answer = result; head = self.new.head })
            self.new.tally self.new.table self.new.journal words.new self.new.bytes }
    {
        serve(
            &mut self.tally,
            &mut self.table,
            &mut self.journal,
            words,
            &mut self.bytes,
            &mut self.head,
            call,
        )
    }

    // Tells what was done, what was answered and where the store stands.
    fn tell(
        &self,
        rt: &impl Print,
        done: impl fmt::Display + Drop,
        answer: Result<Answer, Ground>,
    ) -> io::Result<()> {
        let checkpoint = self.head.checkpoint;
        let newest = self.head.tip;
        print!(rt;
            "{done}{}; checkpoint {checkpoint}, newest {newest}",
            Told(answer)
        )
    }

    // Makes a call that takes no words, and tells what it answered.
    pub(crate) fn ask(
        &mut self,
        rt: &impl Print,
        done: impl fmt::Display + Drop,
        call: Call,
    ) -> io::Result<()> {
        let answer = self.make(call, &mut []);
        self.tell(rt, done, answer)
    }

    // Commits a list of two changes.
    pub(crate) fn commit(&mut self, rt: &impl Print, list: [u64; 2]) -> io::Result<()> {
        let mut words = list;
        let answer = self.make(Call::Step(Step::Commit), &mut words);
        self.tell(rt, format_args!("\n  commit{}", Entries(&list)), answer)
    }

    pub(crate) fn roll_back(&mut self, rt: &impl Print, state: u32) -> io::Result<()> {
        let call = Call::Step(Step::RollBack(state));
        self.ask(rt, format_args!("\n  roll back to state {state}"), call)
    }

    // Makes a call on the read set, and tells what it has then.
    pub(crate) fn read(
        &mut self,
        rt: &impl Print,
        done: impl fmt::Display + Drop,
        call: Call,
    ) -> io::Result<()> {
        let mut reads = self.reads;
        let answer = self.make(call, &mut reads);
        self.reads = reads;
        print!(rt; "{done}{}; read{}", Told(answer), Entries(&reads))
    }

    // What a lookup of an offer at a state answers.
    fn look_up(&mut self, offer: u32, state: u32) -> Quoted {
        let caller = Caller::Desk;
        let call = Call::Ask(Query::LookUp(LookUp {
            caller,
            offer,
            state,
        }));
        let answer = self.make(call, &mut []);
        Quoted { offer, answer }
    }

    // Tells what is quoted at a state for the three offers of the read set, and since when.
    pub(crate) fn quote(&mut self, rt: &impl Print, state: u32) -> io::Result<()> {
        let five = self.look_up(5, state);
        let seven = self.look_up(7, state);
        let nine = self.look_up(9, state);
        print!(rt; "\n  quotes at state {state}: {five}, {seven}, {nine}")
    }
}
