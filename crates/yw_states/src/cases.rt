// The rows of what stands in cases, and of cases that are over.
use crate::ascending::Keyed;
use std::alloc::{AllocError, Global};
use yw_base::{Ident, Name, Row};
use yw_codec::{CodecFault, Field, Reader};
use yw_spec::Place;
use yw_state::{Checks, PrimitiveList, Stage, Way};

/// A net that stands: where, of which specification, which of its nets, and the values of its variables.
#[derive(Drop)]
pub struct NetRow {
    pub ident: Ident,
    pub spec: Name,
    pub net: Name,
    pub values: Row,
}

impl Field for NetRow {
    ghost use Rattle.yw_states.specs.Rows.{is_net_row, net_row_bytes};
    ghost use Rattle.yw_states.specs.RowLaws.{net_row_apart};

    ghost is_field = { is_net_row };

    ghost bytes = { net_row_bytes };

    ghost apart = { net_row_apart };

    fn read(alloc: Global, reader: &mut Reader<'_>) -> Result<NetRow, CodecFault> {
        let (ident, (spec, (net, values))) = <(Ident, (Name, (Name, Row)))>::read(alloc, reader)?;
        Ok(NetRow {
            ident,
            spec,
            net,
            values,
        })
    }

    fn write(&self, out: &mut Vec<u8>) -> Result<(), AllocError> {
        self.ident.write(out)?;
        self.spec.write(out)?;
        self.net.write(out)?;
        self.values.write(out)
    }
}

impl Keyed for NetRow {
    ghost use Rattle.yw_states.specs.Rows.{net_row_before};

    ghost before = { net_row_before };

    fn comes_before(&self, other: &NetRow) -> bool {
        self.ident.cmp(&other.ident).is_lt()
    }
}

/// Tokens on a place of the net that stands there, 1 or more.
#[derive(Drop)]
pub struct TokenRow {
    pub ident: Ident,
    pub place: Place,
    pub count: u32,
}

impl Field for TokenRow {
    ghost use Rattle.yw_states.specs.Rows.{is_token_row, token_row_bytes};
    ghost use Rattle.yw_states.specs.RowLaws.{token_row_apart};

    ghost is_field = { is_token_row };

    ghost bytes = { token_row_bytes };

    ghost apart = { token_row_apart };

    fn read(alloc: Global, reader: &mut Reader<'_>) -> Result<TokenRow, CodecFault> {
        let (ident, (place, count)) = <(Ident, (Place, u32))>::read(alloc, reader)?;
        Ok(TokenRow {
            ident,
            place,
            count,
        })
    }

    fn write(&self, out: &mut Vec<u8>) -> Result<(), AllocError> {
        self.ident.write(out)?;
        self.place.write(out)?;
        self.count.write(out)
    }
}

/// An item: its task, how far it has come, what it was given and has made, and who began it.
#[derive(Drop)]
pub struct ItemRow {
    pub ident: Ident,
    pub task: Name,
    pub stage: Stage,
    pub given: Row,
    pub made: Row,
    pub who: Option<Name>,
}

impl Field for ItemRow {
    ghost use Rattle.yw_states.specs.Rows.{is_item_row, item_row_bytes};
    ghost use Rattle.yw_states.specs.RowLaws.{item_row_apart};

    ghost is_field = { is_item_row };

    ghost bytes = { item_row_bytes };

    ghost apart = { item_row_apart };

    fn read(alloc: Global, reader: &mut Reader<'_>) -> Result<ItemRow, CodecFault> {
        let (ident, (task, (stage, (given, (made, who))))) = <(
            Ident,
            (Name, (Stage, (Row, (Row, Option<Name>)))),
        )>::read(alloc, reader)?;
        Ok(ItemRow {
            ident,
            task,
            stage,
            given,
            made,
            who,
        })
    }

    fn write(&self, out: &mut Vec<u8>) -> Result<(), AllocError> {
        self.ident.write(out)?;
        self.task.write(out)?;
        self.stage.write(out)?;
        self.given.write(out)?;
        self.made.write(out)?;
        self.who.write(out)
    }
}

impl Keyed for ItemRow {
    ghost use Rattle.yw_states.specs.Rows.{item_row_before};

    ghost before = { item_row_before };

    fn comes_before(&self, other: &ItemRow) -> bool {
        self.ident.cmp(&other.ident).is_lt()
    }
}

/// A run of an exlet: whether it waits for its compensation, and what it has still to do.
#[derive(Drop)]
pub struct RunRow {
    pub ident: Ident,
    pub waiting: bool,
    pub rest: PrimitiveList,
}

impl Field for RunRow {
    ghost use Rattle.yw_states.specs.Rows.{is_run_row, run_row_bytes};
    ghost use Rattle.yw_states.specs.RowLaws.{run_row_apart};

    ghost is_field = { is_run_row };

    ghost bytes = { run_row_bytes };

    ghost apart = { run_row_apart };

    fn read(alloc: Global, reader: &mut Reader<'_>) -> Result<RunRow, CodecFault> {
        let (ident, (waiting, rest)) = <(Ident, (bool, PrimitiveList))>::read(alloc, reader)?;
        Ok(RunRow {
            ident,
            waiting,
            rest,
        })
    }

    fn write(&self, out: &mut Vec<u8>) -> Result<(), AllocError> {
        self.ident.write(out)?;
        self.waiting.write(out)?;
        self.rest.write(out)
    }
}

impl Keyed for RunRow {
    ghost use Rattle.yw_states.specs.Rows.{run_row_before};

    ghost before = { run_row_before };

    fn comes_before(&self, other: &RunRow) -> bool {
        self.ident.cmp(&other.ident).is_lt()
    }
}

/// The checks that are due at a case or an item.
#[derive(Drop)]
pub struct DueRow {
    pub ident: Ident,
    pub due: Checks,
}

impl Field for DueRow {
    ghost use Rattle.yw_states.specs.Rows.{is_due_row, due_row_bytes};
    ghost use Rattle.yw_states.specs.RowLaws.{due_row_apart};

    ghost is_field = { is_due_row };

    ghost bytes = { due_row_bytes };

    ghost apart = { due_row_apart };

    fn read(alloc: Global, reader: &mut Reader<'_>) -> Result<DueRow, CodecFault> {
        let (ident, due) = <(Ident, Checks)>::read(alloc, reader)?;
        Ok(DueRow { ident, due })
    }

    fn write(&self, out: &mut Vec<u8>) -> Result<(), AllocError> {
        self.ident.write(out)?;
        self.due.write(out)
    }
}

impl Keyed for DueRow {
    ghost use Rattle.yw_states.specs.Rows.{due_row_before};

    ghost before = { due_row_before };

    fn comes_before(&self, other: &DueRow) -> bool {
        self.ident.cmp(&other.ident).is_lt()
    }
}

/// How a case ended.
#[derive(Drop)]
pub struct EndedRow {
    pub case: u64,
    pub way: Way,
}

impl Field for EndedRow {
    ghost use Rattle.yw_states.specs.Rows.{is_ended_row, ended_row_bytes};
    ghost use Rattle.yw_states.specs.RowLaws.{ended_row_apart};

    ghost is_field = { is_ended_row };

    ghost bytes = { ended_row_bytes };

    ghost apart = { ended_row_apart };

    fn read(alloc: Global, reader: &mut Reader<'_>) -> Result<EndedRow, CodecFault> {
        let (case, way) = <(u64, Way)>::read(alloc, reader)?;
        Ok(EndedRow { case, way })
    }

    fn write(&self, out: &mut Vec<u8>) -> Result<(), AllocError> {
        self.case.write(out)?;
        self.way.write(out)
    }
}

impl Keyed for EndedRow {
    ghost use Rattle.yw_states.specs.Rows.{ended_before};

    ghost before = { ended_before };

    fn comes_before(&self, other: &EndedRow) -> bool {
        self.case.cmp(&other.case).is_lt()
    }
}
