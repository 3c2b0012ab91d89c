// An element that arrives split. Its length is announced, its octets are fed in portions, and what was fed is read at the finish.
ghost use Rattle.std.specs.Prelude.{◌≡◌, true, [], ◌≤◌, drop};
ghost use Rattle.std.specs.List.{list_all};
ghost use Rattle.element.specs.Head.{longest};
ghost use Rattle.element.specs.Numbers.{portions_number, finish_number};
ghost use Rattle.element.specs.Portions.{holding, is_zero, sound, takes, announce_of, feed_of, finish_of, PortionsInRange};
ghost use Rattle.element.specs.Inner.Walk.{read_end};

use crate::answer::{Element, number};
use crate::head::LONGEST;
use crate::octets::put;
use crate::read::read;

// How many octets were announced, how many were fed, and these; zero after them.
#[derive(Clone, Copy)]
pub struct Portions {
    pub announced: u8,
    pub fed: u8,
    pub octets: [u8; LONGEST],
}

// Numbers 42, of an announcement, and 13, of a portion.
#[derive(Clone, Copy, PartialEq, Eq)]
pub enum PortionRefusal {
    TooLong,
    NotTaken,
}

// Numbers 13 and 14.
#[derive(Clone, Copy, PartialEq, Eq)]
pub enum Unfinished {
    NotSound,
    Early,
}

// The element is that of all that was fed; where the finish is refused, that of a value without octets, which `finish` promises too: so it stands beside the answer,
// not in it.
#[derive(Clone, Copy)]
pub struct Finished {
    pub answer: Result<(), Unfinished>,
    pub element: Element,
}

pub fn portions_number(answer: Result<(), PortionRefusal>) -> u8
    ensures { result ≡ portions_number answer }
{
    match answer {
        Ok(()) => 0,
        Err(PortionRefusal::TooLong) => 42,
        Err(PortionRefusal::NotTaken) => 13,
    }
}

pub fn finish_number(finished: &Finished) -> u8
    ensures { result ≡ finish_number finished.now }
{
    match finished.answer {
        Ok(()) => number(finished.element.answer),
        Err(Unfinished::NotSound) => 13,
        Err(Unfinished::Early) => 14,
    }
}

#[tactic(auto, using(crate::proofs::Typed::portions_in_range))]
fn portions_typed(p: Portions)
    ensures { PortionsInRange p }
{}

#[tactic(auto, using(crate::proofs::Holdings::empty_is))]
fn announced(length: u8) -> Portions
    ensures { result ≡ holding length [] }
{
    Portions {
        announced: length,
        fed: 0,
        octets: [0; LONGEST],
    }
}

// By index, and to the end whatever is found: so many octets are compared at once, where `all` takes them one by one.
fn are_zero(octets: &[u8; LONGEST], from: usize) -> bool
    requires { from ≤ longest }
    ensures { result ≡ list_all is_zero (drop from octets.now) }
{
    let mut zero = true;
    for i in from..LONGEST {
        zero = zero & (octets[i] == 0);
    }
    zero
}

impl Portions {
    // What announcing 0 octets gives.
    pub fn empty() -> Portions
        ensures { result ≡ holding 0 [] }
    {
        announced(0)
    }

    // The read is for the proof alone: nothing is left of it in what is compiled.
    fn typed(&self)
        ensures { PortionsInRange self.now }
    {
        portions_typed(*self);
    }

    // Whether some calls give this state.
    #[tactic(auto, using(crate::proofs::Rows::every_all), unfolding(crate::specs::Portions::sound))]
    pub fn sound(&self) -> bool
        ensures { result ≡ sound self.now }
    {
        (self.fed <= self.announced) & are_zero(&self.octets, usize::from(self.fed))
    }

    // A length of any size, whatever was fed before; after one that is refused the state is the one that announcing 0 gives.
    #[tactic(auto, unfolding(crate::specs::Portions::announce_of))]
    pub fn announce(&mut self, length: usize) -> Result<(), PortionRefusal>
        ensures { (result ≡ (announce_of length).answer) × (self.new ≡ (announce_of length).state) }
    {
        if LONGEST < length {
            *self = Portions::empty();
            return Err(PortionRefusal::TooLong);
        }
        *self = announced(length as u8);
        Ok(())
    }

    #[tactic(auto, using(crate::proofs::Holdings::sound_fits, crate::proofs::Holdings::takes_left), unfolding(crate::specs::Portions::takes))]
    fn takes(&self, n: usize) -> bool
        ensures { result ≡ takes self.now n }
    {
        if !self.sound() {
            return false;
        }
        n <= usize::from(self.announced - self.fed)
    }

    // A portion that is refused leaves the state as it was.
    #[tactic(auto, using(crate::proofs::Holdings::feed_not, crate::proofs::Holdings::feed_taken, crate::proofs::Holdings::takes_says))]
    pub fn feed(&mut self, portion: &[u8]) -> Result<(), PortionRefusal>
        ensures { (result ≡ (feed_of self.old portion.now).answer) × (self.new ≡ (feed_of self.old portion.now).state) }
    {
        self.typed();
        if !self.takes(portion.len()) {
            return Err(PortionRefusal::NotTaken);
        }
        let end = put(&mut self.octets, usize::from(self.fed), portion);
        self.fed = end as u8;
        Ok(())
    }

    #[tactic(auto, using(crate::proofs::Holdings::finish_early, crate::proofs::Holdings::finish_read, crate::proofs::Holdings::finish_unsound))]
    fn finishable(&self) -> Result<(), Unfinished>
        ensures { result ≡ (finish_of self.now).answer }
    {
        if !self.sound() {
            return Err(Unfinished::NotSound);
        }
        if self.fed < self.announced {
            return Err(Unfinished::Early);
        }
        Ok(())
    }

    // A refused finish reads too, a value without octets: so the element is made in one place.
    #[tactic(auto, using(crate::proofs::Holdings::finish_by_lem))]
    pub fn finish(&self) -> Finished
        ensures { result ≡ finish_of self.now }
    {
        let answer = self.finishable();
        let end = read_end(answer, self.fed);
        Finished {
            answer,
            element: read(&self.octets[..end]),
        }
    }
}

fn read_end(answer: Result<(), Unfinished>, fed: u8) -> usize
    ensures { result ≡ read_end answer fed }
{
    match answer {
        Ok(()) => usize::from(fed),
        Err(_) => 0,
    }
}
