// The rows of persons and of rule trees.
ghost use Rattle.std.specs.Prelude.{◌≡◌};
ghost use Rattle.yw_state.specs.Judged.{kind_number, name_key, place_key};
ghost use Rattle.yw_state.specs.Map.{lexical, lexical_each};

use crate::ascending::Keyed;
use std::alloc::{AllocError, Global};
use std::cmp::Ordering;
use yw_base::{Items, Name, NameList, Text};
use yw_codec::{CodecFault, Field, Reader, read_short_list, write_short_list};
use yw_state::{Conclusion, TreeKind, TreePlace};

// The most that a count of one byte counts.
const MOST_IN_SHORT_LIST: usize = 255;

/// A person, with the roles as they were given.
#[derive(Drop)]
pub struct PersonRow {
    pub name: Name,
    pub roles: NameList,
}

impl Field for PersonRow {
    ghost use Rattle.yw_states.specs.Rows.{is_person_row, person_row_bytes};
    ghost use Rattle.yw_states.specs.RowLaws.{person_row_apart};

    ghost is_field = { is_person_row };

    ghost bytes = { person_row_bytes };

    ghost apart = { person_row_apart };

    fn read(alloc: Global, reader: &mut Reader<'_>) -> Result<PersonRow, CodecFault> {
        let name = <Name as Field>::read(alloc, reader)?;
        let roles = read_short_list(alloc, reader)?;
        Ok(PersonRow { name, roles })
    }

    fn write(&self, out: &mut Vec<u8>) -> Result<(), AllocError> {
        if self.roles.len() > MOST_IN_SHORT_LIST {
            return Err(AllocError);
        }
        self.name.write(out)?;
        write_short_list(out, self.roles.as_slice())
    }
}

impl Keyed for PersonRow {
    ghost use Rattle.yw_states.specs.Rows.{person_before};

    ghost before = { person_before };

    fn comes_before(&self, other: &PersonRow) -> bool {
        self.name.as_str().cmp(other.name.as_str()).is_lt()
    }
}

/// A rule of a tree: the node and the side at which it stands, the text of its condition, and what it concludes.
#[derive(Drop)]
pub struct RuleRow {
    pub at: u32,
    pub side: bool,
    pub when: Text,
    pub conclusion: Conclusion,
}

impl Field for RuleRow {
    ghost use Rattle.yw_states.specs.Rows.{is_rule_row, rule_row_bytes};
    ghost use Rattle.yw_states.specs.RowLaws.{rule_row_apart};

    ghost is_field = { is_rule_row };

    ghost bytes = { rule_row_bytes };

    ghost apart = { rule_row_apart };

    fn read(alloc: Global, reader: &mut Reader<'_>) -> Result<RuleRow, CodecFault> {
        let (at, (side, (when, conclusion))) = <(u32, (bool, (Text, Conclusion)))>::read(
            alloc, reader,
        )?;
        Ok(RuleRow {
            at,
            side,
            when,
            conclusion,
        })
    }

    fn write(&self, out: &mut Vec<u8>) -> Result<(), AllocError> {
        self.at.write(out)?;
        self.side.write(out)?;
        self.when.write(out)?;
        self.conclusion.write(out)
    }
}

/// A tree that has rules: where it stands, and its rules in order of number.
#[derive(Drop)]
pub struct TreeRow {
    pub place: TreePlace,
    pub rules: Items<RuleRow>,
}

impl Field for TreeRow {
    ghost use Rattle.yw_states.specs.Rows.{is_tree_row, tree_row_bytes};
    ghost use Rattle.yw_states.specs.RowLaws.{tree_row_apart};

    ghost is_field = { is_tree_row };

    ghost bytes = { tree_row_bytes };

    ghost apart = { tree_row_apart };

    fn read(alloc: Global, reader: &mut Reader<'_>) -> Result<TreeRow, CodecFault> {
        let (place, rules) = <(TreePlace, Items<RuleRow>)>::read(alloc, reader)?;
        Ok(TreeRow { place, rules })
    }

    fn write(&self, out: &mut Vec<u8>) -> Result<(), AllocError> {
        self.place.write(out)?;
        self.rules.write(out)
    }
}

// None comes before each name.
fn compare_names(a: &Option<Name>, b: &Option<Name>) -> Ordering
    ensures { result ≡ lexical (name_key a.now) (name_key b.now) }
{
    match (a, b) {
        (None, None) => Ordering::Equal,
        (None, Some(_)) => Ordering::Less,
        (Some(_), None) => Ordering::Greater,
        (Some(a), Some(b)) => a.as_str().cmp(b.as_str()),
    }
}

fn kind_number(kind: TreeKind) -> u8
    ensures { result ≡ kind_number kind }
{
    match kind {
        TreeKind::Pre => 0,
        TreeKind::Post => 1,
        TreeKind::Select => 2,
        TreeKind::External => 3,
        TreeKind::Timeout => 4,
        TreeKind::Abort => 5,
    }
}

// By specification, net, task and kind.
#[tactic(auto, using(crate::proofs::Orders::places_ordered))]
fn compare_places(a: &TreePlace, b: &TreePlace) -> Ordering
    ensures { result ≡ lexical_each (place_key a.now) (place_key b.now) }
{
    let by_kind = kind_number(a.kind).cmp(&kind_number(b.kind));
    let by_task = compare_names(&a.task, &b.task).then(by_kind);
    let by_net = compare_names(&a.net, &b.net).then(by_task);
    a.spec.as_str().cmp(b.spec.as_str()).then(by_net)
}

impl Keyed for TreeRow {
    ghost use Rattle.yw_states.specs.Rows.{tree_before};

    ghost before = { tree_before };

    fn comes_before(&self, other: &TreeRow) -> bool {
        compare_places(&self.place, &other.place).is_lt()
    }
}
