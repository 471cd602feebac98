// Rules that are added to trees, and the tree at a place.
ghost use Rattle.std.specs.Option.{option_copied};
ghost use Rattle.std.specs.Prelude.{◌≡◌, IfOk, OnErr, Option, Some};
ghost use Rattle.yw_library.specs.Accepts.{Answers, IfRefused};
ghost use Rattle.yw_library.specs.Adding.{AlwaysGrows, AlwaysRefuses, HasRoom, IsGrown, IsTriedOn, a_command, command_of, rule_of, side_rule};
ghost use Rattle.yw_library.specs.Holdings.{with_holdings};
ghost use Rattle.yw_library.specs.Trees.{AreLinks};
ghost use Rattle.yw_library.specs.declared.fault.LibraryFault.TheVariants.{Refused};
ghost use Rattle.yw_state.specs.Broken.{Breaks, placeless};
ghost use Rattle.yw_state.specs.State.{State};
ghost use Rattle.yw_state.specs.declared.event.Event.TheVariants as events;
ghost use Rattle.yw_state.specs.declared.rule.Refusal.{Refusal};
ghost use Rattle.yw_texts.specs.Texts.{reader};
ghost use Rattle.yw_trees.specs.Owners.{NamesCases, NamesTasks};

mod conclusion;
mod condition;
mod scope;

use crate::accepted::placeless;
use crate::{Library, LibraryFault};
use conclusion::may_conclude;
use condition::condition;
use std::alloc::{AllocError, Global};
use yw_base::Text;
use yw_expr::Expr;
use yw_rdr::{RdrFault, RuleTree};
use yw_state::{Conclusion, Rule, TreePlace};
use yw_trees::{NewRule, Owner, owner_in};

/// A rule that is to stand in a tree, but for what it concludes.
#[derive(Drop)]
struct Wanted<'a> {
    place: &'a TreePlace,
    at: u32,
    side: bool,
    when: &'a str,
}

/// Where a rule can stand: what has the tree that it joins or begins, and the condition that its text spells.
#[derive(Drop)]
struct Room {
    owner: Owner,
    test: Expr,
}

/// The refusal by a rule that has no place. It takes no memory.
fn refused(alloc: Global, rule: Rule) -> LibraryFault
    ensures { result ≡ Refused (placeless rule) }
{
    LibraryFault::Refused(placeless(alloc, rule))
}

/// The refusal of a side that isn't there, or is taken.
fn side_rule(fault: Option<RdrFault>) -> Option<Rule>
    ensures { result ≡ side_rule fault }
{
    match fault {
        Some(RdrFault::UnknownPlace) => Some(Rule::UnknownPlace),
        Some(RdrFault::PlaceTaken) => Some(Rule::PlaceTaken),
        _ => None,
    }
}

impl Library {
    /// The cases of each specification that is loaded have the trees at its name, and each of its tasks has those at
    /// the names of the specification, of its net and its own. A law: nothing is done.
    pub fn named_after(&self)
        ensures cases { NamesCases self.now.specs }
        ensures tasks { NamesTasks self.now.specs }
    {
        let _ = self.specs();
    }

    /// The tree at a place, found by its names: `None` exactly where it has no rule. It takes no memory.
    pub fn tree(&self, place: &TreePlace) -> Option<&RuleTree>
        ensures { AreLinks self.now place.now (option_copied result) }
    {
        let kept = self.trees();
        let (spec, number) = self.spec(&place.spec)?;
        let owner = owner_in(spec, number, place)?;
        kept.tree_of(owner, place.kind)
    }

    /// Where a rule can stand. Else the first rule that it breaks, as `rule` says.
    fn room(&self, wanted: &Wanted<'_>, conclusion: &Conclusion) -> Result<Room, LibraryFault>
        ensures ok { IfOk result (HasRoom self.now wanted.now conclusion.now) }
        ensures refused { IfRefused result (λ refusal. AlwaysRefuses self.now
            (command_of wanted.now conclusion.now) (Some refusal)) }
    {
        let alloc = self.alloc();
        let kept = self.trees();
        let place = wanted.place;
        let Some((spec, number)) = self.spec(&place.spec) else {
            return Err(refused(alloc, Rule::UnknownSpec));
        };
        let Some(owner) = owner_in(spec, number, place) else {
            return Err(refused(alloc, Rule::UnknownPlace));
        };
        let fault = kept.ask(owner, place.kind, wanted.at, wanted.side);
        if let Some(rule) = side_rule(fault) {
            return Err(refused(alloc, rule));
        }
        let test = condition(alloc, spec, owner, wanted.when)?;
        if !may_conclude(self, place, conclusion) {
            return Err(refused(alloc, Rule::BadConclusion));
        }
        if fault.is_some() {
            return Err(refused(alloc, Rule::Numbers));
        }
        Ok(Room { owner, test })
    }

    /// One rule more, where it can stand, and its number. An `Err` says that no memory was left, and changes nothing.
    fn keep_rule(
        &mut self,
        wanted: &Wanted<'_>,
        room: Room,
        conclusion: Conclusion,
    ) -> Result<u32, AllocError>
        requires { HasRoom self.old wanted.now conclusion room }
        ensures ok { IfOk result
            (IsGrown self.old self.new room.owner wanted.now.place.now (rule_of wanted.now room.test conclusion)) }
        ensures err { OnErr result (self.new ≡ self.old) }
    {
        let rule = NewRule {
            at: wanted.at,
            side: wanted.side,
            when: Text::copy_of(self.alloc(), wanted.when)?,
            test: room.test,
            conclusion,
        };
        self.grow(room.owner, wanted.place, rule)
    }

    /// Adds a rule to the tree at a place, attached to a node at a side, and gives its number.
    ///
    /// `Refused` comes exactly where the rule breaks one, with the first: `UnknownSpec` where the place's specification
    /// isn't loaded; `UnknownPlace` where no tree may stand at the place, or the tree hasn't the node or the side;
    /// `PlaceTaken` where a rule is attached there; `BadExpr` where the text has a fault, at the fault's name and
    /// place, or is neither true nor false, at `Types 0`; `BadConclusion` where a rule of this tree may not conclude
    /// this; `Numbers` where the tree has 65,535 rules. `Memory` comes only where no memory was left. An `Err` changes
    /// nothing. All this is so in each state with this library in it. The rules and their order are our own.
    pub fn rule(
        &mut self,
        place: &TreePlace,
        at: u32,
        side: bool,
        when: &str,
        conclusion: Conclusion,
    ) -> Result<u32, LibraryFault>
        ensures ok { IfOk result (λ number. AlwaysGrows self.old
            (events.AddRule place.now at side when.now conclusion number) self.new) }
        ensures refused { IfRefused result (λ refusal. AlwaysRefuses self.old
            (a_command place.now at side when.now conclusion) (Some refusal)) }

        // What is answered is the only answer that the definitions allow.
        ensures only { (s : State) (found : Option Refusal)
            → Breaks reader (with_holdings s self.old) (a_command place.now at side when.now conclusion) found
            → Answers result found }
        ensures err { OnErr result (self.new ≡ self.old) }
    {
        let wanted = Wanted {
            place,
            at,
            side,
            when,
        };
        let room = self.room(&wanted, &conclusion)?;
        let number = self.keep_rule(&wanted, room, conclusion)?;
        Ok(number)
    }

    /// Adds a rule under a number, as an event tells it: `true` where that leads on, and the library is then that after
    /// it; `false` where it leads nowhere, since the rule breaks one or would have another number, and nothing has
    /// changed. It is so in each state with this library in it. An `Err` says that no memory was left, and changes
    /// nothing.
    pub fn rule_as(
        &mut self,
        place: &TreePlace,
        at: u32,
        side: bool,
        when: &str,
        conclusion: Conclusion,
        number: u32,
    ) -> Result<bool, AllocError>
        ensures tried { IfOk result (λ leads. IsTriedOn self.old
            (events.AddRule place.now at side when.now conclusion number) leads self.new) }
        ensures err { OnErr result (self.new ≡ self.old) }
    {
        let wanted = Wanted {
            place,
            at,
            side,
            when,
        };
        let room = match self.room(&wanted, &conclusion) {
            Ok(room) => room,
            Err(LibraryFault::Refused(_)) => return Ok(false),
            Err(LibraryFault::Memory) => return Err(AllocError),
        };
        let next = self.trees().count_of(room.owner, place.kind) + 1;
        let told = number as usize;
        if next != told {
            return Ok(false);
        }
        self.keep_rule(&wanted, room, conclusion)?;
        Ok(true)
    }
}
