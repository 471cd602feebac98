// The lines of a bench.
ghost use Rattle.std.specs.Prelude.{◌≡◌, ◌<◌, ◌^◌, IfOk, string_bytes};
ghost use Rattle.yw_serve.specs.Bench.{amount_of, complete_line, enter_line, launch_line, load_line, next_seed, person_line, start_line};

use std::alloc::{AllocError, Global};

/// The row of numbers goes on so.
const FACTOR: u64 = 1_103_515_245;

const SUMMAND: u64 = 12_345;

const SEED_END: u64 = 2_147_483_648;

/// How many numbers of the row in a row give one amount, and how many amounts there are.
const SEEDS_OF_AMOUNT: u64 = 65_536;

const AMOUNTS: u64 = 1_000;

/// The number behind one of the row.
pub fn next_seed(seed: u64) -> u64
    requires { seed < 2 ^ 31 }
    ensures value { result ≡ next_seed seed }
    ensures small { result < 2 ^ 31 }
{
    (seed * FACTOR + SUMMAND) % SEED_END
}

/// The amount of the case that has this number of the row.
pub fn amount_of(seed: u64) -> u64
    ensures { result ≡ amount_of seed }
{
    seed / SEEDS_OF_AMOUNT % AMOUNTS
}

/// The line of the person who does all work.
#[tactic(auto, unfolding(crate::specs::Bench::person_line))]
pub fn person_line() -> &'static str
    ensures { result.now ≡ person_line }
{
    "{\"cmd\":\"person\",\"name\":\"bot\",\"roles\":[]}"
}

/// The line that loads the specification: a task by hand, and behind it one of two empty ones, by the amount.
#[tactic(auto, unfolding(crate::specs::Bench::load_line))]
pub fn load_line() -> &'static str
    ensures { result.now ≡ load_line }
{
    "{\"cmd\":\"load\",\"toml\":\"name='bench'\\ntop='main'\\n[[net]]\\nname='main'\\ninput='i'\\noutput='o'\\n\
        vars=[{name='amount',sort='int',use='in'}]\\n\
        flows=[['i','t'],['t','low'],['t','high'],['low','o'],['high','o']]\\n\
        [[net.task]]\\nname='t'\\nsplit='xor'\\nbranch=[{to='low',when='amount < 500'},{to='high'}]\\n\
        [[net.task]]\\nname='low'\\nkind='empty'\\n[[net.task]]\\nname='high'\\nkind='empty'\"}"
}

/// The line that launches a case with this amount. An `Err` says that no memory was left.
#[tactic(auto, unfolding(crate::specs::Bench::launch_line))]
pub fn launch_line(alloc: Global, amount: u64) -> Result<String, AllocError>
    ensures { IfOk result (λ line. string_bytes line ≡ launch_line amount) }
{
    Ok(format!(in alloc;
        "{{\"cmd\":\"launch\",\"spec\":\"bench\",\"data\":{{\"amount\":{amount}}}}}"
    )?)
}

/// The line that enters the task of the case with this number. An `Err` says that no memory was left.
#[tactic(auto, unfolding(crate::specs::Bench::enter_line))]
pub fn enter_line(alloc: Global, case: u64) -> Result<String, AllocError>
    ensures { IfOk result (λ line. string_bytes line ≡ enter_line case) }
{
    Ok(format!(in alloc;
        "{{\"cmd\":\"enter\",\"who\":\"bot\",\"case\":\"{case}\",\"task\":\"t\"}}"
    )?)
}

/// The line that starts that case's item, whose number is the next. An `Err` says that no memory was left.
#[tactic(auto, unfolding(crate::specs::Bench::start_line))]
pub fn start_line(alloc: Global, case: u64) -> Result<String, AllocError>
    requires { case < 2 ^ 48 }
    ensures { IfOk result (λ line. string_bytes line ≡ start_line case) }
{
    let item = case + 1;
    Ok(format!(in alloc; "{{\"cmd\":\"start\",\"who\":\"bot\",\"item\":\"{case}.{item}\"}}")?)
}

/// The line that completes it. An `Err` says that no memory was left.
#[tactic(auto, unfolding(crate::specs::Bench::complete_line))]
pub fn complete_line(alloc: Global, case: u64) -> Result<String, AllocError>
    requires { case < 2 ^ 48 }
    ensures { IfOk result (λ line. string_bytes line ≡ complete_line case) }
{
    let item = case + 1;
    Ok(format!(in alloc;
        "{{\"cmd\":\"complete\",\"who\":\"bot\",\"item\":\"{case}.{item}\",\"out\":{{}}}}"
    )?)
}
