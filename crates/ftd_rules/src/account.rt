//! The names of accounts.

ghost use Rattle.std.specs.Prelude.{◌≡◌};
ghost use Rattle.std.specs.List.{list_all};
ghost use Rattle.ftd_rules.specs.Accounts.{is_account_name, is_name_byte};

/// Whether the text is the name of an account: 1 to 20 bytes, a lower-case ASCII letter and then
/// lower-case letters, digits and hyphens.
#[tactic(auto, unfolding(crate::specs::Accounts::is_account_name))]
pub fn is_account_name(text: &[u8]) -> bool
    ensures { result ≡ is_account_name text.now }
{
    let Some((first, others)) = text.split_first() else {
        return false;
    };
    first.is_ascii_lowercase() && others.len() < 20 && are_name_bytes(others)
}

/// Whether each byte may stand in a name after the first.
fn are_name_bytes(bytes: &[u8]) -> bool
    ensures { result ≡ list_all is_name_byte bytes.now }
{
    bytes.iter().all(|byte| is_name_byte(*byte))
}

/// Whether the byte may stand in a name after the first.
fn is_name_byte(byte: u8) -> bool
    ensures { result ≡ is_name_byte byte }
{
    byte.is_ascii_lowercase() || byte.is_ascii_digit() || byte == b'-'
}
