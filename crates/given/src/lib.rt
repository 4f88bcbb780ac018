// What a call is given beside a text or a number, judged in one place: the image, refusals 1 to 4.
// Whatever else may be given to a call is judged here too, after the image, in the order of the refusals.
#![tactic(auto)]

ghost use Rattle.std.specs.Prelude.{◌≡◌};
ghost use Rattle.image.specs.Opened.{opened_by};
ghost use Rattle.given.specs.Given.{given_refusal};

use image::ClassImage;
use refusal::Refusal;

// Judges what a call is given: the image, or the refusal.
pub fn judge_given(image: &[u8]) -> Result<ClassImage<'_>, Refusal>
    ensures { result ≡ opened_by image.now (given_refusal image.now) }
{
    ClassImage::open(image)
}
