ghost use Rattle.std.specs.Prelude.{◌≡◌, ◌-◌, length};
ghost use Rattle.bar_window.specs.Code.Window.{members, IsAligned};
ghost use Rattle.bar_terms.specs.Terms.{wanted, given};

use bar_window::Window;

/// A responder's answer to a push: the updates that it wants and gives, and the number of junk items that make up for the rest.
#[derive(Clone, Copy, Debug, PartialEq, Eq)]
pub struct PushAnswer {
    pub want: Window,
    pub give: Window,
    pub junk: u8,
}

/// The answer of a responder that holds the updates `held` of the same window. It wants the first `cap` of the young updates that it lacks.
/// It gives the first of the aged ones that it holds, at most as many as it wants.
pub fn push_answer(young: &Window, aged: &Window, held: &Window, cap: u8) -> PushAnswer
    requires young { IsAligned young.now held.now }
    requires aged { IsAligned aged.now held.now }
    ensures rounds { IsAligned result.want held.now × IsAligned result.give held.now }
    ensures want { members result.want ≡ wanted cap (members young.now) (members held.now) }
    ensures give { members result.give ≡ given (length (members result.want)) (members aged.now) (members held.now) }
    ensures junk { result.junk ≡ length (members result.want) - length (members result.give) }
{
    let want = young.minus(held).first(cap);
    let count = want.size() as u8;
    let give = aged.both(held).first(count);
    PushAnswer {
        want,
        give,
        junk: count - give.size() as u8,
    }
}
