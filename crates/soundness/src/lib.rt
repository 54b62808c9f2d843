// A store that is lent to be read: whether it is sound, and the grounds that several calls share: those of the store, of a state named and
// of one to be flushed to.
#![tactic(auto)]

ghost use Rattle.std.specs.Prelude.{◌≡◌, ◌≤◌, OnOk};
ghost use Rattle.answers.specs.Answers.{Checks};
ghost use Rattle.answers.specs.First.{first};
ghost use Rattle.soundness.specs.Checks.{store_grounds, state_grounds, is_barred, target_grounds};
ghost use Rattle.soundness.specs.Facts.{StoreOk};
ghost use Rattle.soundness.specs.Sound.{is_sound};

use answers::ground::Ground;
use layout::clauses::{
    depth_fits, is_journal, is_table, least_of, lengths_fit, numbers_fit, slots_fit,
};
use layout::head::Head;
use layout::states::held_count;

// The memory of a store and its head, lent to be read.
#[derive(Clone, Copy)]
pub struct StoreRef<'a> {
    pub table: &'a [u64],
    pub journal: &'a [u64],
    pub head: &'a Head,
}

// Whether a flush to this state would leave fewer steps above it than the depth. One to the checkpoint takes none away.
fn is_barred(head: Head, state: u32) -> bool
    ensures { result ≡ is_barred head state }
{
    if head.checkpoint == state {
        return false;
    }
    (head.tip as u64) < (state as u64) + (head.depth as u64)
}

impl<'a> StoreRef<'a> {
    // Whether the store is sound.
    pub fn is_sound(self) -> bool
        ensures { result ≡ is_sound self.entry.table.now self.entry.journal.now self.entry.head.now }
    {
        let head = self.head;
        let checkpoint = head.checkpoint;
        if !is_table(self.table, head.used) {
            return false;
        }
        if !numbers_fit(head.oldest, checkpoint, head.tip) {
            return false;
        }
        let held = held_count(*head);
        if !is_journal(self.journal, &head.ends, held) {
            return false;
        }
        if !slots_fit(checkpoint, head.taken, head.issued) {
            return false;
        }
        if head.oldest != least_of(checkpoint, head.taken, head.issued) {
            return false;
        }
        depth_fits(head.depth)
    }

    // Whether the lengths lent are in their ranges, and the store is sound.
    #[tactic(auto, unfolding(answers::specs::First::first))]
    pub fn check(self) -> Result<(), Ground>
        ensures grounds { Checks result (first (store_grounds self.entry.table.now self.entry.journal.now self.entry.head.now)) }
        ensures sound { OnOk result (StoreOk self.entry.table.now self.entry.journal.now self.entry.head.now) }
    {
        if !lengths_fit(self.table.len(), self.journal.len()) {
            return Err(Ground::Lengths);
        }
        if !self.is_sound() {
            return Err(Ground::Unsound);
        }
        Ok(())
    }

    // Whether a state lies from the checkpoint to the tip.
    #[tactic(auto, unfolding(answers::specs::First::first))]
    pub fn check_state(self, state: u32) -> Result<(), Ground>
        ensures grounds { Checks result (first (state_grounds self.entry.head.now state)) }
        ensures range { OnOk result ((self.entry.head.now.checkpoint ≤ state) × (state ≤ self.entry.head.now.tip)) }
    {
        if state < self.head.checkpoint {
            return Err(Ground::StateRange);
        }
        if self.head.tip < state {
            return Err(Ground::StateRange);
        }
        Ok(())
    }

    // Whether a flush may go to this state.
    #[tactic(auto, unfolding(answers::specs::First::first))]
    pub fn check_target(self, state: u32) -> Result<(), Ground>
        ensures grounds { Checks result (first (target_grounds self.entry.head.now state)) }
        ensures range { OnOk result ((self.entry.head.now.checkpoint ≤ state) × (state ≤ self.entry.head.now.tip)) }
    {
        self.check_state(state)?;
        if is_barred(*self.head, state) {
            return Err(Ground::TooDeep);
        }
        Ok(())
    }
}
