// What expressions are worth.
ghost use Rattle.std.specs.Prelude.{◌≡◌, Some, None, IfSome, map, ◌≤ℤ◌, ◌^◌, pos, neg_ℤ, ◌+ℤ◌, ◌-ℤ◌, ◌*ℤ◌};
ghost use Rattle.std.specs.List.{All};
ghost use Rattle.std.specs.Option.{option_map};
ghost use Rattle.yw_base.specs.declared.value.Sort.TheVariants.{Bool};
ghost use Rattle.yw_base.specs.Values.{sort_of, value_of};
ghost use Rattle.yw_expr.specs.Meaning.{in_range, quotient, remainder, total, element_at, an_int, function_value, unary_value, ints_value, bools_value, texts_value, binary_value, element_value, val, truth_of};
ghost use Rattle.yw_expr.specs.Node.{tree_of};
ghost use Rattle.yw_expr.specs.Small.{IsSmall, HasSmallConstants};
ghost use Rattle.yw_expr.specs.Sorts.{tree_sort, IsIn};

use crate::node::{Expr, Node};
use crate::row::Values;
use yw_base::{Row, Text, Val};
use yw_grammar::{Call, Infix, Prefix};

fn plus(a: i64, b: i64) -> Option<i64>
    ensures { result ≡ in_range (a +ℤ b) }
{
    a.checked_add(b)
}

fn minus(a: i64, b: i64) -> Option<i64>
    ensures { result ≡ in_range (a -ℤ b) }
{
    a.checked_sub(b)
}

fn times(a: i64, b: i64) -> Option<i64>
    ensures { result ≡ in_range (a *ℤ b) }
{
    a.checked_mul(b)
}

fn quotient(a: i64, b: i64) -> Option<i64>
    ensures { result ≡ quotient a b }
{
    a.checked_div(b)
}

fn remainder(a: i64, b: i64) -> Option<i64>
    ensures { result ≡ remainder a b }
{
    a.checked_rem(b)
}

fn negated(a: i64) -> Option<i64>
    ensures { result ≡ in_range (neg_ℤ a) }
{
    a.checked_neg()
}

fn an_int<'a>(n: Option<i64>) -> Option<Val<'a>>
    ensures { option_map value_of result ≡ an_int n }
{
    match n {
        None => None,
        Some(n) => Some(Val::Int(n)),
    }
}

/// The sum so far with one more number, where few enough were summed.
fn with_one_more(sum: i128, x: i64) -> i128
    requires low { neg_ℤ (pos (2 ^ 126)) ≤ℤ sum }
    requires high { sum ≤ℤ pos (2 ^ 126) }
    ensures value { result ≡ sum +ℤ x }
    ensures low { (sum -ℤ pos (2 ^ 63)) ≤ℤ result }
    ensures high { result ≤ℤ (sum +ℤ pos (2 ^ 63)) }
{
    sum + i128::from(x)
}

/// The sum of all, where it is an i64. The sum of less than 2^63 of them is an i128.
fn sum_of(xs: &[i64]) -> Option<i64>
    ensures { result ≡ in_range (total xs.now) }
{
    let mut sum: i128 = 0;
    for x in xs {
        sum = with_one_more(sum, *x);
    }
    i64::try_from(sum).ok()
}

/// A function of a list.
fn function_value<'a>(f: Call, list: Val<'a>) -> Option<Val<'a>>
    ensures { option_map value_of result ≡ function_value f (value_of list.entry) }
{
    match (f, list) {
        (Call::Len, Val::Ints(xs)) => Some(Val::Int(xs.len() as i64)),
        (Call::Len, Val::Texts(xs)) => Some(Val::Int(xs.len() as i64)),
        (Call::Sum, Val::Ints(xs)) => an_int(sum_of(xs)),
        _ => None,
    }
}

/// An operator before its operand.
fn unary_value<'a>(op: Prefix, v: Val<'a>) -> Option<Val<'a>>
    ensures { option_map value_of result ≡ unary_value op (value_of v.entry) }
{
    match (op, v) {
        (Prefix::Not, Val::Bool(b)) => Some(Val::Bool(!b)),
        (Prefix::Negate, Val::Int(n)) => an_int(negated(n)),
        _ => None,
    }
}

/// An operator between two numbers.
fn ints_value<'a>(op: Infix, a: i64, b: i64) -> Option<Val<'a>>
    ensures { option_map value_of result ≡ ints_value op a b }
{
    match op {
        Infix::Plus => an_int(plus(a, b)),
        Infix::Minus => an_int(minus(a, b)),
        Infix::Times => an_int(times(a, b)),
        Infix::Divide => an_int(quotient(a, b)),
        Infix::Remainder => an_int(remainder(a, b)),
        Infix::Equal => Some(Val::Bool(a == b)),
        Infix::NotEqual => Some(Val::Bool(a != b)),
        Infix::Less => Some(Val::Bool(a < b)),
        Infix::LessOrEqual => Some(Val::Bool(a <= b)),
        Infix::Greater => Some(Val::Bool(a > b)),
        Infix::GreaterOrEqual => Some(Val::Bool(a >= b)),
        Infix::And | Infix::Or => None,
    }
}

/// An operator but `and` and `or` between two truth values.
fn bools_value<'a>(op: Infix, a: bool, b: bool) -> Option<Val<'a>>
    ensures { option_map value_of result ≡ bools_value op a b }
{
    match op {
        Infix::Equal => Some(Val::Bool(a == b)),
        Infix::NotEqual => Some(Val::Bool(a != b)),
        _ => None,
    }
}

/// An operator between two texts.
fn texts_value<'a>(op: Infix, a: &str, b: &str) -> Option<Val<'a>>
    ensures { option_map value_of result ≡ texts_value op a.now b.now }
{
    match op {
        Infix::Equal => Some(Val::Bool(a == b)),
        Infix::NotEqual => Some(Val::Bool(a != b)),
        _ => None,
    }
}

/// An operator but `and` and `or` between two values.
fn binary_value<'a>(op: Infix, v: Val<'a>, w: Val<'a>) -> Option<Val<'a>>
    ensures { option_map value_of result ≡ binary_value op (value_of v.entry) (value_of w.entry) }
{
    match (v, w) {
        (Val::Int(a), Val::Int(b)) => ints_value(op, a, b),
        (Val::Bool(a), Val::Bool(b)) => bools_value(op, a, b),
        (Val::Text(a), Val::Text(b)) => texts_value(op, a, b),
        _ => None,
    }
}

fn int_at(xs: &[i64], k: i64) -> Option<i64>
    ensures { result ≡ element_at xs.now k }
{
    if k < 0 {
        return None;
    }
    xs.get(k.unsigned_abs() as usize).copied()
}

fn text_at<'a>(xs: &'a [Text], k: i64) -> Option<&'a Text>
    ensures { option_map (λ t. t.now) result ≡ element_at xs.now k }
{
    if k < 0 {
        return None;
    }
    xs.get(k.unsigned_abs() as usize)
}

/// The element of a list at a place.
fn element_value<'a>(list: Val<'a>, place: Val<'a>) -> Option<Val<'a>>
    ensures { option_map value_of result ≡ element_value (value_of list.entry) (value_of place.entry) }
{
    match (list, place) {
        (Val::Ints(xs), Val::Int(k)) => an_int(int_at(xs, k)),
        (Val::Texts(xs), Val::Int(k)) => match text_at(xs, k) {
            None => None,
            Some(text) => Some(Val::Text(text.as_str())),
        },
        _ => None,
    }
}

/// A node's value over values by number.
fn node_value<'a, V: Values>(node: &'a Node, row: &'a V) -> Option<Val<'a>>
    ensures { option_map value_of result ≡ val (tree_of node.now) (V.values row.now) }
{
    match node {
        Node::Constant(v) => Some(v.lend()),
        Node::Variable(k, _) => match row.get(*k) {
            None => None,
            Some(v) => Some(v.lend()),
        },
        Node::Function(f, x) => match node_value(x, row) {
            None => None,
            Some(v) => function_value(*f, v),
        },
        Node::Unary(op, x) => match node_value(x, row) {
            None => None,
            Some(v) => unary_value(*op, v),
        },
        Node::Binary(op, x, y) => match node_value(x, row) {
            None => None,
            Some(v) => match (*op, v) {
                (Infix::And, Val::Bool(true)) => node_value(y, row),
                (Infix::And, Val::Bool(false)) => Some(Val::Bool(false)),
                (Infix::And, _) => None,
                (Infix::Or, Val::Bool(true)) => Some(Val::Bool(true)),
                (Infix::Or, Val::Bool(false)) => node_value(y, row),
                (Infix::Or, _) => None,
                (op, v) => match node_value(y, row) {
                    None => None,
                    Some(w) => binary_value(op, v, w),
                },
            },
        },
        Node::Element(x, k) => match node_value(x, row) {
            None => None,
            Some(v) => match node_value(k, row) {
                None => None,
                Some(w) => element_value(v, w),
            },
        },
    }
}

/// The value of an expression over values by number; None exactly where it is undefined. It takes no memory: texts and lists stand where the values
/// do, or in the expression.
pub fn view_of<'a, V: Values>(e: &'a Expr, row: &'a V) -> Option<Val<'a>>
    ensures value { option_map value_of result ≡ val e.now (V.values row.now) }
{
    node_value(e.root(), row)
}

/// The truth value of an expression over values by number; None exactly where it is undefined. It takes no memory.
pub fn truth_over<V: Values>(e: &Expr, row: &V) -> Option<bool>
    ensures value { result ≡ truth_of (val e.now (V.values row.now)) }
{
    match view_of(e, row) {
        Some(Val::Bool(b)) => Some(b),
        _ => None,
    }
}

/// The value of an expression over a row; None exactly where it is undefined. It takes no memory: texts and
/// lists stand in the row or in the expression.
pub fn view<'a>(e: &'a Expr, row: &'a Row) -> Option<Val<'a>>
    ensures value { option_map value_of result ≡ val e.now row.now }

    // Over a row of its scope an expression has values of its sort alone.
    ensures sorted { IsIn (map sort_of row.now) e.now
        → IfSome result (λ v. tree_sort e.now ≡ Some (sort_of (value_of v))) }

    // Texts and lists stay within their limits.
    ensures small { HasSmallConstants e.now → All IsSmall row.now
        → IfSome result (λ v. IsSmall (value_of v)) }
{
    node_value(e.root(), row)
}

/// The truth value of an expression over a row; None exactly where it is undefined. It takes no memory.
pub fn truth(e: &Expr, row: &Row) -> Option<bool>
    ensures value { result ≡ truth_of (val e.now row.now) }

    // Over a row of its scope a condition has no truth value only where it has no value.
    ensures undefined { tree_sort e.now ≡ Some Bool → IsIn (map sort_of row.now) e.now
        → result ≡ None → val e.now row.now ≡ None }
{
    match view(e, row) {
        Some(Val::Bool(b)) => Some(b),
        _ => None,
    }
}
