// The rows of a state as lines.
ghost use Rattle.std.specs.Prelude.{◌≡◌};
ghost use Rattle.yw_restore.specs.Lines.{no_lines};

use crate::line::Line;
use std::alloc::{AllocError, Global};
use yw_base::{Ident, Items, Name, NameList, Row, Text};
use yw_codec::{Field, write_short_list};
use yw_spec::Place;
use yw_state::Checks;
use yw_tree::{Node, Run};

// The most that a count of one byte counts.
const MOST_IN_SHORT_LIST: usize = 255;

/// A person.
#[derive(Drop)]
pub struct PersonLine<'a> {
    pub name: &'a Name,
    pub roles: &'a NameList,
}

impl Line for PersonLine<'_> {
    ghost use Rattle.yw_restore.specs.Lines.{is_person_line, person_line_bytes};

    ghost is_line = { is_person_line };

    ghost bytes = { person_line_bytes };

    fn write(&self, out: &mut Vec<u8>) -> Result<(), AllocError> {
        if self.roles.len() > MOST_IN_SHORT_LIST {
            return Err(AllocError);
        }
        self.name.write(out)?;
        write_short_list(out, self.roles.as_slice())
    }
}

/// The text of a specification.
#[derive(Drop)]
pub struct TextLine<'a> {
    pub text: &'a Text,
}

impl Line for TextLine<'_> {
    ghost use Rattle.yw_restore.specs.Lines.{is_text_line, text_line_bytes};

    ghost is_line = { is_text_line };

    ghost bytes = { text_line_bytes };

    fn write(&self, out: &mut Vec<u8>) -> Result<(), AllocError> {
        self.text.write(out)
    }
}

/// A net that stands.
#[derive(Drop)]
pub struct NetLine<'a> {
    pub at: &'a Ident,
    pub spec: &'a Name,
    pub net: &'a Name,
    pub values: &'a Row,
}

impl Line for NetLine<'_> {
    ghost use Rattle.yw_restore.specs.Lines.{is_net_line, net_line_bytes};

    ghost is_line = { is_net_line };

    ghost bytes = { net_line_bytes };

    fn write(&self, out: &mut Vec<u8>) -> Result<(), AllocError> {
        self.at.write(out)?;
        self.spec.write(out)?;
        self.net.write(out)?;
        self.values.write(out)
    }
}

/// The tokens of a place that has some.
#[derive(Drop)]
pub struct TokenLine<'a> {
    pub at: &'a Ident,
    pub place: &'a Place,
    pub count: u64,
}

impl Line for TokenLine<'_> {
    ghost use Rattle.yw_restore.specs.Lines.{is_token_line, token_line_bytes};

    ghost is_line = { is_token_line };

    ghost bytes = { token_line_bytes };

    fn write(&self, out: &mut Vec<u8>) -> Result<(), AllocError> {
        let Ok(count) = u32::try_from(self.count) else {
            return Err(AllocError);
        };
        self.at.write(out)?;
        self.place.write(out)?;
        count.write(out)
    }
}

/// An item of a task.
#[derive(Drop)]
pub struct ItemLine<'a> {
    pub at: &'a Ident,
    pub task: &'a Name,
    pub item: &'a Node,
}

impl Line for ItemLine<'_> {
    ghost use Rattle.yw_restore.specs.Lines.{is_item_line, item_line_bytes};

    ghost is_line = { is_item_line };

    ghost bytes = { item_line_bytes };

    fn write(&self, out: &mut Vec<u8>) -> Result<(), AllocError> {
        self.at.write(out)?;
        self.task.write(out)?;
        self.item.stage.write(out)?;
        self.item.given.write(out)?;
        self.item.made.write(out)?;
        self.item.who.write(out)
    }
}

/// A run of an exlet.
#[derive(Drop)]
pub struct RunLine<'a> {
    pub at: &'a Ident,
    pub run: &'a Run,
}

impl Line for RunLine<'_> {
    ghost use Rattle.yw_restore.specs.Lines.{is_run_line, run_line_bytes};

    ghost is_line = { is_run_line };

    ghost bytes = { run_line_bytes };

    fn write(&self, out: &mut Vec<u8>) -> Result<(), AllocError> {
        self.at.write(out)?;
        self.run.waiting.write(out)?;
        self.run.rest.write(out)
    }
}

/// Where a case or an item is suspended.
#[derive(Drop)]
pub struct MarkLine<'a> {
    pub at: &'a Ident,
}

impl Line for MarkLine<'_> {
    ghost use Rattle.yw_restore.specs.Lines.{is_mark_line, mark_line_bytes};

    ghost is_line = { is_mark_line };

    ghost bytes = { mark_line_bytes };

    fn write(&self, out: &mut Vec<u8>) -> Result<(), AllocError> {
        self.at.write(out)
    }
}

/// The checks that are due at a case or an item.
#[derive(Drop)]
pub struct DueLine<'a> {
    pub at: &'a Ident,
    pub due: Checks,
}

impl Line for DueLine<'_> {
    ghost use Rattle.yw_restore.specs.Lines.{is_due_line, due_line_bytes};

    ghost is_line = { is_due_line };

    ghost bytes = { due_line_bytes };

    fn write(&self, out: &mut Vec<u8>) -> Result<(), AllocError> {
        self.at.write(out)?;
        self.due.write(out)
    }
}

/// What stands in cases: each kind in order of identity, and the tokens of a net in the order of its places.
#[derive(Drop)]
pub struct CaseLines<'a> {
    pub nets: Items<NetLine<'a>>,
    pub tokens: Items<TokenLine<'a>>,
    pub items: Items<ItemLine<'a>>,
    pub runs: Items<RunLine<'a>>,
    pub suspended: Items<MarkLine<'a>>,
    pub due: Items<DueLine<'a>>,
}

/// Nothing stands. It takes no memory.
pub fn no_lines<'a>(alloc: Global) -> CaseLines<'a>
    ensures { result ≡ no_lines }
{
    CaseLines {
        nets: Items::new(alloc),
        tokens: Items::new(alloc),
        items: Items::new(alloc),
        runs: Items::new(alloc),
        suspended: Items::new(alloc),
        due: Items::new(alloc),
    }
}
