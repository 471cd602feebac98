// The program's words.
ghost use Rattle.std.specs.Prelude.{◌≡◌, ◌↔◌, ◌≤◌, ◌<◌, ◌^◌, ◌∷◌, [], ℕ, map, codes, IfSome, IsNone, IsTrue, string_bytes};
ghost use Rattle.yw_serve.specs.Words.{IsBench, IsLimit, IsNumberTo, IsRun, IsWord, Spells, greatest_count, greatest_start};

const LEAST_LIMIT: u64 = 64;

const GREATEST_LIMIT: u64 = 1_073_741_824;

/// The greatest number with which a bench begins.
pub const GREATEST_START: u64 = 2_147_483_647;

/// The most cases of a bench.
pub const GREATEST_COUNT: u64 = 100_000;

/// The number that the text spells in decimal digits without a leading zero, where it fits.
fn number_in(text: &str) -> Option<u64>
    ensures some { IfSome result (Spells text.now) }
    ensures none { IsNone result → (n : ℕ) → Spells text.now n → 2 ^ 64 ≤ n }
{
    let bytes = text.as_bytes();
    if bytes.is_empty() || !bytes[0].is_ascii_digit() {
        return None;
    }
    if bytes[0] == b'0' && bytes.len() > 1 {
        return None;
    }
    text.parse().ok()
}

fn limit_in(text: &str) -> Option<u64>
    ensures some { IfSome result (IsLimit text.now) }
    ensures none { IsNone result → (n : ℕ) → ¬ IsLimit text.now n }
{
    let limit = number_in(text)?;
    if LEAST_LIMIT <= limit && limit <= GREATEST_LIMIT {
        Some(limit)
    } else {
        None
    }
}

/// The limit that the words give, which is the offset past which no entry that is taken ends, and `None` exactly where they aren't those of a run.
pub fn file_limit(words: &[String]) -> Option<u64>
    ensures some { IfSome result (IsRun words.now) }
    ensures none { IsNone result → (limit : ℕ) → ¬ IsRun words.now limit }
    ensures range { IfSome result (λ limit. (64 ≤ limit) × (limit ≤ 2 ^ 30)) }
{
    match words {
        [word] => {
            if word.as_str() == "run" {
                Some(GREATEST_LIMIT)
            } else {
                None
            }
        }
        [word, option, text] => {
            if word.as_str() == "run" && option.as_str() == "--limit" {
                limit_in(text.as_str())
            } else {
                None
            }
        }
        _ => None,
    }
}

/// The words are this one alone.
pub fn is_word(words: &[String], wanted: &str) -> bool
    ensures { IsTrue result ↔ IsWord wanted.now words.now }
{
    match words {
        [word] => word.as_str() == wanted,
        _ => false,
    }
}

/// The number that the text spells, where it is no greater than this.
fn number_to(greatest: u64, text: &str) -> Option<u64>
    ensures some { IfSome result (IsNumberTo greatest text.now) }
    ensures none { IsNone result → (n : ℕ) → ¬ IsNumberTo greatest text.now n }
{
    let number = number_in(text)?;
    if number <= greatest {
        Some(number)
    } else {
        None
    }
}

fn both_numbers(start: &str, count: &str) -> Option<(u64, u64)>
    ensures some { IfSome result (λ both. IsNumberTo greatest_start start.now both.0
        × IsNumberTo greatest_count count.now both.1) }
    ensures none { IsNone result → (m n : ℕ) → IsNumberTo greatest_start start.now m
        → ¬ IsNumberTo greatest_count count.now n }
{
    let start = number_to(GREATEST_START, start)?;
    let count = number_to(GREATEST_COUNT, count)?;
    Some((start, count))
}

/// The two numbers of a bench, and `None` exactly where the words aren't those of one.
pub fn bench_numbers(words: &[String]) -> Option<(u64, u64)>
    ensures some { IfSome result (λ both. IsBench words.now both.0 both.1) }
    ensures none { IsNone result → (start count : ℕ) → ¬ IsBench words.now start count }
{
    match words {
        [word, start, count] => {
            if word.as_str() == "bench" {
                both_numbers(start.as_str(), count.as_str())
            } else {
                None
            }
        }
        _ => None,
    }
}
