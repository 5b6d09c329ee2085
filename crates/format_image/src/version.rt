//! The versions of the format of images.

ghost use Rattle.std.specs.Prelude.{◌≡◌};
ghost use Rattle.base_fields.specs.Reading.{Finds};
ghost use Rattle.format_image.specs.DefBytes.{version_code};
ghost use Rattle.format_image.specs.ImageReading.{version_at};

use base_fields::{ReadError, u8_at};

/// A version of the format of images. `First` can't say that a table or a column was dropped.
#[derive(Clone, Copy, Debug, PartialEq, Eq)]
pub enum ImageVersion {
    First,
    Second,
}

/// The number of the version in an image.
pub(crate) fn version_code(version: ImageVersion) -> u8
    ensures { result ≡ version_code version }
{
    match version {
        ImageVersion::First => 1,
        ImageVersion::Second => 2,
    }
}

/// The version whose number is the first byte.
#[tactic(auto, unfolding(crate::specs::ImageReading::version_at))]
pub(crate) fn version_at(bytes: &[u8]) -> Result<(ImageVersion, &[u8]), ReadError>
    ensures { Finds (λ x. (x.0, x.1.now)) result (version_at bytes.now) }
{
    let (code, rest) = u8_at(bytes)?;
    match code {
        1 => Ok((ImageVersion::First, rest)),
        2 => Ok((ImageVersion::Second, rest)),
        _ => Err(ReadError::Malformed),
    }
}
