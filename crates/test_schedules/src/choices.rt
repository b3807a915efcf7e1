//! The choice of the actor that makes the next event.

ghost use Rattle.std.specs.Prelude.{◌≡◌, ℕ, ◌+◌, ◌-◌, ◌≤◌, ◌<◌, IfSome, None, length, option_map};
ghost use Rattle.event_core.specs.Cores.{IsNextIn, IsOverIn, core_flight, core_places, core_words};
ghost use Rattle.test_schedules.specs.Choices.{begin_of, chooser_after, chosen, first_chooser, first_from, first_in, generator_after, is_backwards, next_in_order, place_in_turn, seed_of};

use bank_words::Event;
use event_core::Core;
use rand_core::utils::NextWord;
use rand_pcg::Pcg32;
use scram_types::ProcId;

/// A rule that chooses the actor of the next event. Actors without a next event are skipped.
#[derive(Clone, Copy, Debug)]
pub enum Rule {
    /// The first actor that has a next event, beginning with the actor that follows the actor of the last event. The
    /// order has the processors and then the kernel, and begins again after the kernel.
    InTurns,
    /// The first processor that has a next event, or the kernel if none has one.
    LeastFirst,
    /// The last processor that has a next event, or the kernel if none has one.
    GreatestFirst,
    /// The kernel, or the first processor that has a next event if the kernel has none.
    KernelFirst,
    /// The first actor that has a next event, beginning with a random actor. The random numbers are from a generator
    /// with this seed.
    Seeded(u64),
}

/// A rule, with the state that it keeps from one choice to the next.
#[derive(Drop)]
pub(crate) struct Chooser {
    rule: Rule,
    last: Option<usize>,
    generator: Pcg32,
}

impl Chooser {
    /// Creates the chooser of a rule, with its state before the first choice.
    pub(crate) fn new(rule: Rule) -> Chooser
        ensures { result ≡ first_chooser rule }
    {
        Chooser {
            rule,
            last: None,
            generator: Pcg32::new(seed_of(rule), 1),
        }
    }

    // Returns the place of the actor that is asked first, and takes a number from the generator if the rule is
    // seeded.
    fn begin(&mut self, procs: usize) -> usize
        requires { procs ≤ 8 }
        ensures begin { result ≡ begin_of procs self.old }
        ensures low { result ≤ procs }
        ensures rule { self.new.rule ≡ self.old.rule }
        ensures last { self.new.last ≡ self.old.last }
        ensures generator { self.new.generator ≡ generator_after self.old.rule self.old.generator }
    {
        match self.rule {
            Rule::InTurns => place_in_turn(procs, self.last),
            Rule::LeastFirst => 0,
            Rule::GreatestFirst => 0,
            Rule::KernelFirst => procs,
            Rule::Seeded(_) => self.generator.next_word() as usize % (procs + 1),
        }
    }

    /// Returns the next event of the actor that the rule chooses, or `None` if the flight is over.
    pub(crate) fn choose(&mut self, core: &Core, procs: usize) -> Option<Event>
        requires procs { procs ≡ length core.now.spec.procs }
        requires few { procs ≤ 8 }
        ensures event { result ≡ option_map (λ found. found.1) (chosen (core_flight core.now) (core_places core.now) (core_words core.now) self.old) }
        ensures after { IfSome (chosen (core_flight core.now) (core_places core.now) (core_words core.now) self.old)
            (λ found. self.new ≡ chooser_after self.old found.0) }
        ensures next { IfSome result (IsNextIn core.now) }
        ensures over { result ≡ None → IsOverIn core.now }
    {
        let backwards = is_backwards(self.rule);
        let begin = self.begin(procs);
        match first_from(core, procs, backwards, begin) {
            Some((place, event)) => {
                self.last = Some(place);
                Some(event)
            }
            None => None,
        }
    }
}

// Returns the seed of a rule, or 0 if it has none.
fn seed_of(rule: Rule) -> u64
    ensures { result ≡ seed_of rule }
{
    match rule {
        Rule::Seeded(seed) => seed,
        Rule::InTurns => 0,
        Rule::LeastFirst => 0,
        Rule::GreatestFirst => 0,
        Rule::KernelFirst => 0,
    }
}

// Returns the place after the place `last` of the last event's actor. It is the first place if that actor is the
// kernel, or if there has been no event.
fn place_in_turn(procs: usize, last: Option<usize>) -> usize
    requires { procs ≤ 8 }
    ensures place { result ≡ place_in_turn procs last }
    ensures low { result ≤ procs }
{
    match last {
        Some(place) => { if place < procs { place + 1 } else { 0 } }
        None => 0,
    }
}

fn is_backwards(rule: Rule) -> bool
    ensures { result ≡ is_backwards rule }
{
    match rule {
        Rule::GreatestFirst => true,
        Rule::InTurns => false,
        Rule::LeastFirst => false,
        Rule::KernelFirst => false,
        Rule::Seeded(_) => false,
    }
}

// Returns the next event of the actor at place `place` of the order, or `None` if the actor has none. The order has
// the processors, in descending order if `backwards` is `true`, and then the kernel.
fn next_in_order(core: &Core, procs: usize, backwards: bool, place: usize) -> Option<Event>
    requires procs { procs ≡ length core.now.spec.procs }
    requires few { procs ≤ 8 }
    requires place { place ≤ procs }
    ensures same { result ≡ next_in_order (core_flight core.now) (core_places core.now) (core_words core.now) backwards place }
    ensures next { IfSome result (IsNextIn core.now) }
{
    if place == procs {
        core.next_kernel()
    } else if backwards {
        core.next_of(ProcId((procs - 1 - place) as u8))
    } else {
        core.next_of(ProcId(place as u8))
    }
}

// Returns the first place whose actor has a next event, with the event, or `None` if there is none. The places from
// `begin` on come first, and then the places before `begin`.
fn first_from(core: &Core, procs: usize, backwards: bool, begin: usize) -> Option<(usize, Event)>
    requires procs { procs ≡ length core.now.spec.procs }
    requires few { procs ≤ 8 }
    requires begin { begin ≤ procs }
    ensures same { result ≡ first_from (next_in_order (core_flight core.now) (core_places core.now) (core_words core.now) backwards) procs begin }
    ensures next { IfSome result (λ found. IsNextIn core.now found.1) }
    ensures over { result ≡ None → IsOverIn core.now }
{
    core.goes_on();
    match first_in(core, procs, backwards, begin, procs + 1) {
        Some(found) => Some(found),
        None => first_in(core, procs, backwards, 0, begin),
    }
}

// Returns the first place whose actor has a next event, with the event, among the places from `begin` to before
// `end`, or `None` if there is none.
fn first_in(
    core: &Core,
    procs: usize,
    backwards: bool,
    begin: usize,
    end: usize,
) -> Option<(usize, Event)>
    requires procs { procs ≡ length core.now.spec.procs }
    requires few { procs ≤ 8 }
    requires end { end ≤ procs + 1 }
    ensures same { result ≡ first_in (next_in_order (core_flight core.now) (core_places core.now) (core_words core.now) backwards) begin (end - begin) }
    ensures next { IfSome result (λ found. IsNextIn core.now found.1) }
    ensures none { result ≡ None → (place : ℕ) → begin ≤ place → place < end
        → next_in_order (core_flight core.now) (core_places core.now) (core_words core.now) backwards place ≡ None }
{
    for place in begin..end {
        match next_in_order(core, procs, backwards, place) {
            Some(event) => return Some((place, event)),
            None => {}
        }
    }
    None
}
