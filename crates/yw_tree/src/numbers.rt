//! The numbers of an identity.
ghost use Rattle.std.specs.Prelude.{◌≡◌, ◌≤◌, length};
ghost use Rattle.yw_state.specs.Identity.{is_case_ident};
ghost use Rattle.yw_base.specs.Identity.{case_number, parent};

/// The number of the case in which it lies.
pub fn case_number(id: &[u64]) -> u64
    requires { 1 ≤ length id.now }
    ensures { result ≡ case_number id.now }
{
    id[0]
}

/// Whether it is a case's.
pub fn is_case(id: &[u64]) -> bool
    ensures { result ≡ is_case_ident id.now }
{
    id.len() == 1
}

/// Without its last number.
pub fn parent(id: &[u64]) -> &[u64]
    requires { 1 ≤ length id.now }
    ensures { result.now ≡ parent id.now }
{
    &id[..id.len() - 1]
}
