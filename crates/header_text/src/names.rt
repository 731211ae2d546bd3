//! Names of fields, parameters, types and charsets.
ghost use Rattle.std.specs.Prelude.{◌≡◌};
ghost use Rattle.header_text.specs.Names.{is_named as is_named_of};

/// Returns whether a name is the wanted one, in any ASCII case.
pub fn is_named(name: &[u8], wanted: &[u8]) -> bool
    ensures { result ≡ is_named_of name.now wanted.now }
{
    name.eq_ignore_ascii_case(wanted)
}
