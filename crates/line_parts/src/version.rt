// Versions of the script language.
ghost use Rattle.std.specs.Prelude.{◌≡◌, IfOk, IfErr, Ok, Err};
ghost use Rattle.line_parts.specs.Versions.{has_roles};
ghost use Rattle.line_parts.specs.Texts.{texts};
ghost use Rattle.line_parts.specs.Versions.{is_wide, version_numbered, version_of};

use crate::cause::Cause;
use crate::line_words::one_token;
use crate::tokens::number_of;

/// A version of the script language. Letters are of lower case in the first one, and of both cases
/// in the second.
#[derive(Clone, Copy)]
pub enum Version {
    One,
    Two,
}

impl Version {
    // The version of this number.
    fn numbered(number: u32) -> Option<Version>
        ensures { result ≡ version_numbered number }
    {
        match number {
            1 => Some(Version::One),
            2 => Some(Version::Two),
            _ => None,
        }
    }

    /// Whether letters are of both cases.
    pub fn is_wide(self) -> bool
        ensures { result ≡ is_wide self }
    {
        match self {
            Version::One => false,
            Version::Two => true,
        }
    }

    /// Whether lines may give letters a role.
    pub fn has_roles(self) -> bool
        ensures { result ≡ has_roles self }
    {
        match self {
            Version::One => false,
            Version::Two => true,
        }
    }
}

/// The version that the tokens behind `version` say.
pub fn version_of(tokens: &[&[u8]]) -> Result<Version, Cause>
    ensures { result ≡ version_of (texts tokens.now) }
{
    let number = number_of(one_token(tokens)?).ok_or(Cause::BadNumber)?;
    Version::numbered(number).ok_or(Cause::UnknownVersion)
}
