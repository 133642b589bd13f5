// The run from the blank tape, followed from return to return.
ghost use Rattle.std.specs.Prelude.{◌≡◌, ◌<◌, [], length, ℕ, true, IfOk, OnOk, IsTrue};
ghost use Rattle.kind_named.specs.inside.Loop.{GliderGlides, GoesRound, MakesTurn};
ghost use Rattle.kind_named.specs.inside.Tokens.{RopesBelow};

use crate::glider::glider_glides;
use crate::jump::{Section, jump};
use crate::ropes::{Ropes, one_more};
use crate::stacks::put_one;
use crate::tokens::{Beyond, Token, comes_again};
use crate::visit::{Answer, visit};
use std::alloc::{AllocError as NoMemory, AllocFailed, Global};
use std::marker::Model;

/// Why the run isn't followed further. None of these says anything of the machine.
#[derive(Clone, Copy, Debug, PartialEq, Eq, Drop)]
pub enum GivenUp {
    /// Memory was refused.
    NoMemory,
    /// A number would be 2^128 or more.
    TooLarge,
    /// More than 10^9 rules in one visit, 10^6 ropes opened in a row, 10^6 sections in one jump, or 2^64 turns.
    TooLong,
    /// No rule fits what stands at the head, or what was planned for a jump fails a test.
    NoRule,
}

impl From<NoMemory> for GivenUp {
    ghost use Rattle.std.specs.Prelude.{◌≡◌};
    ghost use Rattle.kind_named.specs.declared.run.GivenUp.TheVariants.{NoMemory};

    ghost from_gives = { λ _ e. e ≡ NoMemory };

    fn from(_: NoMemory) -> GivenUp {
        GivenUp::NoMemory
    }
}

impl<T: Drop> From<AllocFailed<T>> for GivenUp {
    ghost use Rattle.std.specs.Prelude.{◌≡◌};
    ghost use Rattle.kind_named.specs.declared.run.GivenUp.TheVariants.{NoMemory};

    ghost from_gives = { λ _ e. e ≡ NoMemory };

    fn from(_: AllocFailed<T>) -> GivenUp {
        GivenUp::NoMemory
    }
}

/// One visit, and the turn at the right end.
pub(crate) fn round(
    ropes: &mut Ropes,
    left: &mut Vec<Token>,
    right: &mut Vec<Token>,
    beyond: Beyond,
) -> Result<(), GivenUp>
    requires left { RopesBelow (length ropes.old) left.old.items }
    requires right { right.old.items ≡ [] }
    ensures right { OnOk result (right.new.items ≡ []) }
    ensures rounds { OnOk result (GoesRound beyond ropes.old ropes.new left.old.items left.new.items) }
{
    match visit(ropes, left, right, beyond)? {
        Answer::A => Ok(()),
        Answer::C => {
            put_one(ropes, left)?;
            Ok(())
        }
    }
}

/// A jump over as many visits as the left half tape bears, or one round where it bears none. What is beyond the tokens
/// then.
pub(crate) fn turn(
    ropes: &mut Ropes,
    left: &mut Vec<Token>,
    right: &mut Vec<Token>,
    taken: &mut Vec<Section>,
    plan: &mut Vec<u128>,
    beyond: Beyond,
) -> Result<Beyond, GivenUp>
    requires left { RopesBelow (length ropes.old) left.old.items }
    requires right { right.old.items ≡ [] }
    requires glides { GliderGlides }
    ensures right { IfOk result (λ _. right.new.items ≡ []) }
    ensures turns { IfOk result (λ after. MakesTurn beyond after ropes.old ropes.new left.old.items left.new.items) }
{
    let (count, after) = jump(ropes, left, taken, plan, beyond)?;
    if count > 0 {
        return Ok(after);
    }
    round(ropes, left, right, after)?;
    Ok(after)
}

/// How many turns the run takes until it repeats.
pub const TURNS: u64 = 6_009_787;

/// The run of Skelet 1 from the blank tape, followed from return to return to the right end. A turn is one visit of all
/// that is written, or a jump over as many visits as can be made at once: some 7 * 10^25 in the `TURNS` turns until it
/// repeats. It takes some 80 MB then.
#[derive(Drop)]
pub struct MainRun {
    ropes: Ropes,
    left: Vec<Token>,
    right: Vec<Token>,
    taken: Vec<Section>,
    plan: Vec<u128>,
    beyond: Beyond,
    turns: u64,
}

impl Model for MainRun {
    ghost use Rattle.kind_named.specs.Kind.{Followed, followed_code};
    ghost use Rattle.kind_named.specs.inside.Loop.{OnMainRun};

    ghost Value = { Followed };

    ghost coded = { followed_code };

    ghost view = { λ a. record { turns = a.turns } };

    ghost invariant = { λ a. OnMainRun a.turns a.beyond a.ropes a.left.items a.right.items };
}

impl MainRun {
    ghost use Rattle.std.specs.Prelude.{◌≡◌, ◌+◌, IfOk, IsTrue};
    ghost use Rattle.machine_text.specs.Terms.{entry_of};
    ghost use Rattle.law_turing.specs.Terms.{Never};
    ghost use Rattle.kind_named.specs.Kind.{skelet1, RunsFor};

    /// The first return to the right end, once a period of the glider was seen to be as it is said to be: some
    /// 2,000,000 rules. `NoRule` where it isn't so.
    pub fn start(alloc: Global) -> Result<MainRun, GivenUp>
        ensures { IfOk result (λ run. run.turns ≡ 0) }
    {
        if !glider_glides(alloc)? {
            return Err(GivenUp::NoRule);
        }
        Ok(MainRun {
            ropes: Ropes::new(alloc),
            left: Vec::new(alloc),
            right: Vec::new(alloc),
            taken: Vec::new(alloc),
            plan: Vec::new(alloc),
            beyond: Beyond::Blank,
            turns: 0,
        })
    }

    /// One turn more: at least one step of the machine. After an error the run isn't followed further.
    pub fn turn(self) -> Result<MainRun, GivenUp>
        ensures { IfOk result (λ run. run.turns ≡ self.turns + 1) }
    {
        let MainRun {
            mut ropes,
            mut left,
            mut right,
            mut taken,
            mut plan,
            beyond,
            turns,
        } = self;
        let turns = one_more(turns)?;
        let beyond = turn(
            &mut ropes, &mut left, &mut right, &mut taken, &mut plan, beyond,
        )?;
        Ok(MainRun {
            ropes,
            left,
            right,
            taken,
            plan,
            beyond,
            turns,
        })
    }

    /// How many turns were made. The machine makes at least as many steps.
    pub fn turns(&self) -> u64
        ensures turns { result ≡ self.now.turns }
        ensures steps { RunsFor result }
    {
        self.turns
    }

    /// Whether the run is seen to repeat for ever from here on: what stands nearest to the right end comes again and
    /// again, and what is beyond it is never read. If so, the machine never halts.
    pub fn repeats(self) -> Result<bool, GivenUp>
        ensures { IfOk result (λ yes. IsTrue yes → Never (entry_of skelet1)) }
    {
        let mut ropes = self.ropes;
        let mut left = self.left;
        let mut right = self.right;
        comes_again(&mut ropes, &mut left, &mut right)
    }
}
