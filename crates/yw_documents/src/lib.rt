//! Worked specifications as TOML texts, for tests, and the texts that lines of test data stand for. The calls that give them out promise
//! nothing, so that no proof of a test holds their letters. The loan, the net of depth one and the reminder are our own.
#![tactic(auto)]

mod line;

pub use line::{number_at, spelled, unfolded, word_at};

/// Two tasks, one after the other.
pub fn seq() -> &'static str {
    SEQ
}

/// A net with one variable and one task for an officer.
pub fn deep() -> &'static str {
    DEEP
}

/// A net with one task for a clerk.
pub fn remind() -> &'static str {
    REMIND
}

/// A loan that a board votes on: two nets, a split, and a task of several items.
pub fn loan() -> &'static str {
    LOAN
}

/// A task that divides 100 by what its item makes.
pub fn divides() -> &'static str {
    DIVIDES
}

const DIVIDES: &str = r#"name = "divides"
top = "main"
[[net]]
name = "main"
input = "i"
output = "o"
vars = [{name="x",sort="int"}]
flows = [["i","a"],["a","o"]]
[[net.task]]
name = "a"
outs = [{name="den",sort="int"}]
set = [{var="x",value="100 / den"}]
"#;

const SEQ: &str = r#"name = "seq"
top = "main"
[[net]]
name = "main"
input = "i"
output = "o"
flows = [["i","a"],["a","b"],["b","o"]]
[[net.task]]
name = "a"
[[net.task]]
name = "b"
"#;

const DEEP: &str = r#"name = "deep"
top = "main"
[[net]]
name = "main"
input = "i"
output = "o"
vars = [{name="amount",sort="int",use="in"}]
flows = [["i","visit"],["visit","o"]]
[[net.task]]
name = "visit"
role = "officer"
"#;

const REMIND: &str = r#"name = "remind"
top = "main"
[[net]]
name = "main"
input = "i"
output = "o"
flows = [["i","call"],["call","o"]]
[[net.task]]
name = "call"
role = "clerk"
"#;

const LOAN: &str = r#"name = "loan"
top = "main"
[[net]]
name = "main"
input = "i"
output = "o"
vars = [{name="amount",sort="int"},{name="who",sort="texts",use="in"},{name="yes",sort="int"}]
flows = [["i","apply"],["apply","review"],["review","pay"],["review","refuse"],["pay","o"],["refuse","o"]]
[[net.task]]
name = "apply"
role = "clerk"
outs = [{name="amount",sort="int"}]
set = [{var="amount",value="amount"}]
[[net.task]]
name = "review"
kind = "sub"
net = "board"
split = "xor"
branch = [{to="pay",when="yes = 2"},{to="refuse"}]
ins = [{name="amount",sort="int",value="amount"},{name="who",sort="texts",value="who"}]
outs = [{name="yes",sort="int"}]
set = [{var="yes",value="yes"}]
[[net.task]]
name = "pay"
role = "teller"
[[net.task]]
name = "refuse"
kind = "empty"
[[net]]
name = "board"
input = "i"
output = "o"
vars = [{name="amount",sort="int",use="in"},{name="who",sort="texts",use="in"},{name="yes",sort="int",use="out"}]
flows = [["i","assess"],["assess","vote"],["vote","o"]]
[[net.task]]
name = "assess"
role = "officer"
ins = [{name="amount",sort="int",value="amount"}]
[[net.task]]
name = "vote"
role = "officer"
ins = [{name="reviewer",sort="text"}]
outs = [{name="v",sort="int"}]
set = [{var="yes",value="sum(v)"}]
each = "who"
item = "reviewer"
min = 2
max = 5
threshold = 2
"#;
