//! Given turns.

ghost use Rattle.std.specs.Prelude.{◌≡◌, ◌<◌, ◌≤◌, All, length};
ghost use Rattle.plan.specs.Plans.{IsInside};

use plan::Span;

/// Given turns of which some may be made: what is left of those of one span, and the spans behind it.
#[derive(Drop)]
pub struct Given {
    spans: Vec<Span>,
    /// The place of the first span of which no turn was looked at.
    next: usize,
    /// The slot of the span before it, and how many turns that gives still: 0 only where no span follows.
    slot: u8,
    left: u32,
    ghost inside: { All IsInside spans.items },
    ghost within: { next ≤ length spans.items },
    ghost below: { slot < 64 },
    ghost current: { left ≡ 0 → next ≡ length spans.items },
}

impl Given {
    ghost use Rattle.std.specs.Prelude.{ℕ, ◌+◌, drop, None, IfSome, false};
    ghost use Rattle.plan.specs.Plans.{slots_of};
    ghost use Rattle.unix_model.specs.Schedule as model;
    ghost use Rattle.unix_model.specs.State.{Unix};
    ghost use Rattle.keynix.specs.Schedules.{IsGiven, row_left, row_slot, slots_from, slots_left};

    /// The turns of these spans.
    pub fn new(spans: Vec<Span>) -> Given
        requires { All IsInside spans.items }
        ensures { slots_left result ≡ slots_of spans.items }
    {
        match Given::span_at(&spans, 0) {
            Some(span) => Given {
                spans,
                next: 1,
                slot: span.slot,
                left: span.turns,
            },
            None => Given {
                spans,
                next: 0,
                slot: 0,
                left: 0,
            },
        }
    }

    /// Whether no turn is left.
    pub fn is_spent(&self) -> bool
        ensures { result ≡ model.is_spent (model.Given (slots_left self.now)) }
    {
        self.left == 0
    }

    /// The slot that gets the next turn.
    pub fn slot(&self) -> u8
        ensures below { result < 64 }
        ensures next { (unix : Unix) → model.is_spent (model.Given (slots_left self.now)) ≡ false → result ≡ model.next_slot unix (model.Given (slots_left self.now)) }
        ensures some { model.is_spent (model.Given (slots_left self.now)) ≡ false → 0 < row_left self.now }
    {
        self.slot
    }

    /// How many turns in a row it gets. It may get more behind them.
    pub fn row(&self) -> u32
        ensures left { result ≡ row_left self.now }
        ensures some { model.is_spent (model.Given (slots_left self.now)) ≡ false → 0 < result }
        ensures row { (number : ℕ) → number ≤ result → IsGiven (slots_left self.now) (row_slot self.now) number }
        ensures next { (unix : Unix) → model.is_spent (model.Given (slots_left self.now)) ≡ false → model.next_slot unix (model.Given (slots_left self.now)) ≡ row_slot self.now }
    {
        self.left
    }

    /// So many of them are made.
    pub fn pass(&mut self, turns: u32)
        requires { turns ≤ row_left self.old }
        ensures { slots_left self.new ≡ drop turns (slots_left self.old) }
    {
        if turns < self.left {
            self.left -= turns;
            return;
        }
        match Given::span_at(&self.spans, self.next) {
            Some(span) => {
                self.slot = span.slot;
                self.left = span.turns;
                self.next += 1;
            }
            None => self.left = 0,
        }
    }

    // The span at a place, where there is one.
    #[tactic(auto, unfolding(plan::specs::Plans::slots_of))]
    fn span_at(spans: &[Span], place: usize) -> Option<Span>
        requires { All IsInside spans.now }
        ensures inside { IfSome result IsInside }
        ensures slots { slots_of (drop place spans.now) ≡ slots_from result (drop (place + 1) spans.now) }
        ensures there { IfSome result (λ span. place < length spans.now) }
        ensures ended { result ≡ None → length spans.now ≤ place }
    {
        match spans.get(place) {
            Some(span) => Some(*span),
            None => None,
        }
    }
}
