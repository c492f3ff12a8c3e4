// What each call of the machine is lent, and the calls.
ghost use Rattle.std.specs.Prelude.{◌≡◌, List};
ghost use Rattle.machine.specs.Asked.{asked};
ghost use Rattle.boundary.specs.Boundary.{Crosses, taken};
ghost use Rattle.calls.specs.Calls.{world_of};
ghost use Rattle.crossing.specs.Crossing.{CrossesWatched};
ghost use Rattle.entries.specs.declared.Entry.{Entry};
ghost use Rattle.entries.specs.Entries.{marked};
ghost use Rattle.entries.specs.Code.{points_of};
ghost use Rattle.watched.specs.Answer.{watched_of};
ghost use Rattle.watched.specs.Code.{bared};

use crossing::Crossing;
use entries::Points;
use machine::Call;
use panel::view::View;

// The 32 words of the state, the memory, the journal.
#[derive(Drop)]
pub struct Lent<'a, 'b, 'c> {
    pub state: &'a mut [u16; 32],
    pub ram: &'b mut [u8],
    pub journal: &'c mut [u16],
}

pub fn of<'a, 'b, 'c>(
    state: &'a mut [u16; 32],
    ram: &'b mut [u8],
    journal: &'c mut [u16],
) -> Lent<'a, 'b, 'c> {
    Lent {
        state,
        ram,
        journal,
    }
}

impl Lent<'_, '_, '_> {
    pub fn view(&self) -> View<'_> {
        View {
            state: &*self.state,
            ram: &*self.ram,
        }
    }

    // A call's result, as the boundary gives it.
    pub fn cross(&mut self, call: Call) -> u64
        ensures { Crosses (asked call) self.old.state.now self.old.ram.now self.old.journal.now
            result self.new.state.now self.new.ram.now self.new.journal.now }
    {
        mb50::cross(call, &mut *self.state, &mut *self.ram, &mut *self.journal)
    }

    pub fn cross_points(&mut self, p: Points, budget: u16) -> Crossing
        ensures crosses_watched { (l : List Entry) → bared p ≡ points_of l → CrossesWatched budget self.old.state.now self.old.ram.now self.old.journal.now l
            result.result self.new.state.now self.new.ram.now self.new.journal.now (marked result.met l) }
        ensures met_value { (l : List Entry) → bared p ≡ points_of l
            → result.met ≡ (watched_of budget l (world_of (taken self.old.state.now) self.old.ram.now self.old.journal.now)).met }
    {
        crossing::cross_points(
            &mut *self.state,
            &mut *self.ram,
            &mut *self.journal,
            p,
            budget,
        )
    }
}
