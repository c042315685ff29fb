use bar_bytes::Rooms;
use bar_wire::{Input, Shape};

/// A core takes inputs one at a time, after everything that the previous one sends and plays was given out. It represents the list of
/// inputs that it took.
pub trait Core {
    ghost use Rattle.std.specs.Prelude.{◌≡◌, ◌≤◌, ◌<◌, ◌^◌, ℕ, List, MatchOption, IfSome, length, min, nat_le};
    ghost use Rattle.bar_bytes.specs.Code.Rooms.{kept_in};
    ghost use Rattle.bar_wire.specs.Inputs as plain;
    ghost use Rattle.bar_wire.specs.Limits.{largest_content, largest_datagram};
    ghost use Rattle.bar_record.specs.Pacing.{ticks_of};
    ghost use Rattle.bar_core.specs.Code.Face.{Face, GivesContent, GivesFirst, IsIdle, Keeps, Steps};
    ghost use Rattle.bar_core.specs.Rules.{Send};

    /// The core took these inputs.
    ghost stands: { Self → List plain.Input → Type 0 };

    /// These datagrams of the last of these inputs are still to be given out.
    ghost owes: { Self → List plain.Input → List Send → Type 0 };

    ghost face: { Self → Face };

    /// Takes an input. Everything from the previous input must have been given out.
    fn take(&mut self, input: Input<'_>)
        requires { IsIdle (face self.old) }
        ensures { Steps (stands self.old) (stands self.new) (owes self.new) (face self.old) (face self.new)
            (plain.plain_input input.entry) };

    /// Writes the next content of the last input to the start of a buffer, and returns its length, or `None` if none is left. The buffer
    /// has room for the largest content.
    fn give_content(&mut self, buf: &mut [u8]) -> Option<usize>
        requires { largest_content ≤ length buf.old }
        ensures keeps { Keeps (stands self.old) (stands self.new) (face self.old) (face self.new) }
        ensures owes { (inputs : List plain.Input) (sends : List Send) → owes self.old inputs sends → owes self.new inputs sends }
        ensures left { (face self.new).left ≡ (face self.old).left }
        ensures gives { GivesContent buf.new result (face self.old).plays (face self.new).plays };

    /// Writes the next datagram of the last input to the start of a buffer, and returns its receiver and its length, or `None` if none is
    /// left. The buffer has room for the largest datagram.
    fn give_datagram(&mut self, buf: &mut [u8]) -> Option<(u16, usize)>
        requires { largest_datagram ≤ length buf.old }
        ensures keeps { Keeps (stands self.old) (stands self.new) (face self.old) (face self.new) }
        ensures plays { (face self.new).plays ≡ (face self.old).plays }
        ensures gives { (inputs : List plain.Input) (sends : List Send) → stands self.old inputs → owes self.old inputs sends →
            GivesFirst buf.new result sends (owes self.new inputs) }
        ensures within { IfSome result (λ given. given.1 ≤ length buf.new) }
        ensures ends { MatchOption result ((face self.new).left ≡ 0) (λ given. (face self.new).left < (face self.old).left) };

    /// The number of ticks taken.
    fn ticks_taken(&self) -> u32
        ensures { result ≡ (face self.now).ticks };

    /// Whether the last tick was taken.
    fn is_over(&self) -> bool
        ensures { result ≡ nat_le (face self.now).rules.last (face self.now).ticks };

    /// The shape of the session: its numbers of rounds and peers.
    fn session_shape(&self) -> Shape
        ensures rounds { result.rounds ≡ (face self.now).rules.rounds }
        ensures peers { result.peers ≡ (face self.now).rules.peers };

    /// The manifest datagrams that it keeps, by round.
    fn kept_manifests(&self) -> &Rooms
        ensures are { (taken : List plain.Input) → stands self.now taken → (round : ℕ) →
            kept_in result.now round ≡ (face self.now).rules.manifest taken round }
        ensures short { (taken : List plain.Input) → stands self.now taken → (round : ℕ) →
            IfSome (kept_in result.now round) (λ datagram. length datagram < 2 ^ 16) };

    /// The evidence that it keeps, by party, encoded as the body of an EVIDENCE.
    fn evidence_by_party(&self) -> &Rooms
        ensures { (taken : List plain.Input) → stands self.now taken → (party : ℕ) →
            kept_in result.now party ≡ (face self.now).rules.evidence taken party };

    ghost timed: { (c : Self) (taken : List plain.Input) → stands c taken → (face c).ticks ≡ min (ticks_of taken) (face c).rules.last };

    ghost few: { (c : Self) → (face c).rules.last < 2 ^ 32 };
}
