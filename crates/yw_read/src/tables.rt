// The tables of a specification, each with its keys in order.
ghost use Rattle.std.specs.Prelude.{List, Result, ℕ};
ghost use Rattle.yw_read.specs.Tables.{branch_table, in_table, net_table, out_table, set_table, spec_table, task_table, var_table};

use crate::keys::{
    FromTable, optional, optional_tables, optional_value, required, required_tables, value_or,
    with_no_other,
};
use crate::raw::{
    RawBranch, RawIn, RawKind, RawNet, RawOut, RawSet, RawSpec, RawTask, RawVar, ReadFault,
};
use std::alloc::Global;
use toml::Table;
use yw_base::{Gate, Items, Usage};

const VAR_KEYS: [&str; 4] = ["name", "sort", "use", "init"];

const BRANCH_KEYS: [&str; 2] = ["to", "when"];

const IN_KEYS: [&str; 3] = ["name", "sort", "value"];

const OUT_KEYS: [&str; 2] = ["name", "sort"];

const SET_KEYS: [&str; 2] = ["var", "value"];

const TASK_KEYS: [&str; 17] = [
    "name",
    "kind",
    "net",
    "role",
    "join",
    "split",
    "branch",
    "remove",
    "ins",
    "outs",
    "set",
    "each",
    "item",
    "min",
    "max",
    "threshold",
    "dynamic",
];

const NET_KEYS: [&str; 7] = [
    "name",
    "input",
    "output",
    "conditions",
    "vars",
    "flows",
    "task",
];

const SPEC_KEYS: [&str; 3] = ["name", "top", "net"];

impl FromTable for RawVar {
    ghost shape = { var_table };

    #[tactic(auto, unfolding(crate::specs::Tables::var_table))]
    fn from_table(alloc: Global, table: &Table) -> Result<RawVar, ReadFault> {
        let name = required(alloc, table, "name")?;
        let sort = required(alloc, table, "sort")?;
        let usage = value_or(alloc, table, "use", Usage::Local)?;
        let init = optional_value(alloc, table, "init", sort)?;
        with_no_other(
            alloc,
            table,
            &VAR_KEYS,
            RawVar {
                name,
                sort,
                usage,
                init,
            },
        )
    }
}

impl FromTable for RawBranch {
    ghost shape = { branch_table };

    #[tactic(auto, unfolding(crate::specs::Tables::branch_table))]
    fn from_table(alloc: Global, table: &Table) -> Result<RawBranch, ReadFault> {
        let to = required(alloc, table, "to")?;
        let when = optional(alloc, table, "when")?;
        with_no_other(alloc, table, &BRANCH_KEYS, RawBranch { to, when })
    }
}

impl FromTable for RawIn {
    ghost shape = { in_table };

    #[tactic(auto, unfolding(crate::specs::Tables::in_table))]
    fn from_table(alloc: Global, table: &Table) -> Result<RawIn, ReadFault> {
        let name = required(alloc, table, "name")?;
        let sort = required(alloc, table, "sort")?;
        let value = optional(alloc, table, "value")?;
        with_no_other(alloc, table, &IN_KEYS, RawIn { name, sort, value })
    }
}

impl FromTable for RawOut {
    ghost shape = { out_table };

    #[tactic(auto, unfolding(crate::specs::Tables::out_table))]
    fn from_table(alloc: Global, table: &Table) -> Result<RawOut, ReadFault> {
        let name = required(alloc, table, "name")?;
        let sort = required(alloc, table, "sort")?;
        with_no_other(alloc, table, &OUT_KEYS, RawOut { name, sort })
    }
}

impl FromTable for RawSet {
    ghost shape = { set_table };

    #[tactic(auto, unfolding(crate::specs::Tables::set_table))]
    fn from_table(alloc: Global, table: &Table) -> Result<RawSet, ReadFault> {
        let var = required(alloc, table, "var")?;
        let value = required(alloc, table, "value")?;
        with_no_other(alloc, table, &SET_KEYS, RawSet { var, value })
    }
}

impl FromTable for RawTask {
    ghost shape = { task_table };

    #[tactic(auto, unfolding(crate::specs::Tables::task_table))]
    fn from_table(alloc: Global, table: &Table) -> Result<RawTask, ReadFault> {
        let name = required(alloc, table, "name")?;
        let kind = value_or(alloc, table, "kind", RawKind::Atomic)?;
        let net = optional(alloc, table, "net")?;
        let role = optional(alloc, table, "role")?;
        let join = value_or(alloc, table, "join", Gate::And)?;
        let split = value_or(alloc, table, "split", Gate::And)?;
        let branch = optional_tables(alloc, table, "branch")?;
        let remove = value_or(alloc, table, "remove", Items::new(alloc))?;
        let ins = optional_tables(alloc, table, "ins")?;
        let outs = optional_tables(alloc, table, "outs")?;
        let set = optional_tables(alloc, table, "set")?;
        let each = optional(alloc, table, "each")?;
        let item = optional(alloc, table, "item")?;
        let min = optional(alloc, table, "min")?;
        let max = optional(alloc, table, "max")?;
        let threshold = optional(alloc, table, "threshold")?;
        let dynamic = optional(alloc, table, "dynamic")?;
        let said = RawTask {
            name,
            kind,
            net,
            role,
            join,
            split,
            branch,
            remove,
            ins,
            outs,
            set,
            each,
            item,
            min,
            max,
            threshold,
            dynamic,
        };
        with_no_other(alloc, table, &TASK_KEYS, said)
    }
}

impl FromTable for RawNet {
    ghost shape = { net_table };

    #[tactic(auto, unfolding(crate::specs::Tables::net_table))]
    fn from_table(alloc: Global, table: &Table) -> Result<RawNet, ReadFault> {
        let name = required(alloc, table, "name")?;
        let input = required(alloc, table, "input")?;
        let output = required(alloc, table, "output")?;
        let conditions = value_or(alloc, table, "conditions", Items::new(alloc))?;
        let vars = optional_tables(alloc, table, "vars")?;
        let flows = required(alloc, table, "flows")?;
        let task = optional_tables(alloc, table, "task")?;
        let said = RawNet {
            name,
            input,
            output,
            conditions,
            vars,
            flows,
            task,
        };
        with_no_other(alloc, table, &NET_KEYS, said)
    }
}

impl FromTable for RawSpec {
    ghost shape = { spec_table };

    #[tactic(auto, unfolding(crate::specs::Tables::spec_table))]
    fn from_table(alloc: Global, table: &Table) -> Result<RawSpec, ReadFault> {
        let name = required(alloc, table, "name")?;
        let top = required(alloc, table, "top")?;
        let net = required_tables(alloc, table, "net")?;
        with_no_other(alloc, table, &SPEC_KEYS, RawSpec { name, top, net })
    }
}
