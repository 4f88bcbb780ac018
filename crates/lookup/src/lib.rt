// Looking up the class of a code point in a class image.
#![tactic(auto)]

ghost use Rattle.std.specs.Prelude.{◌≡◌, ◌≤◌};
ghost use Rattle.image.specs.Records.{record_at, record_count};
ghost use Rattle.lookup.specs.Halving.{more, seek_of};
ghost use Rattle.lookup.specs.Lookup.{lookup_of};

use image::records::Section;
use image::{ClassImage, UNASSIGNED};
use refusal::Refusal;

// What a lookup finds: a class, 0 where no range holds the code point; and how many ranges were looked at.
#[derive(Clone, Copy, Debug, PartialEq, Eq)]
pub struct Probe {
    pub class: u32,
    pub count: usize,
}

// One more step of the search.
fn add_step(p: Probe) -> Probe
    requires { p.count ≤ 64 }
    ensures { result ≡ more p }
{
    Probe {
        count: p.count + 1,
        ..p
    }
}

// The halving search for x in the records lo to hi of a section.
fn seek(image: &ClassImage, section: Section, lo: usize, hi: usize, x: u32) -> Probe
    requires { hi ≤ record_count image.now section }
    ensures { result ≡ seek_of (record_at image.now section) lo hi x }
{
    if hi <= lo {
        return Probe {
            class: UNASSIGNED,
            count: 0,
        };
    }
    let mid = lo + (hi - lo) / 2;
    let range = image.record_at(section, mid);
    if x < range.first {
        return add_step(seek(image, section, lo, mid, x));
    }
    if range.last < x {
        return add_step(seek(image, section, mid + 1, hi, x));
    }
    Probe {
        class: range.class,
        count: 1,
    }
}

// The search in a whole section.
pub fn find(image: &ClassImage, section: Section, x: u32) -> Probe
    ensures { result ≡ seek_of (record_at image.now section) 0 (record_count image.now section) x }
{
    seek(image, section, 0, image.count_records(section), x)
}

// The class of x after the profile, and how many ranges the search looked at.
pub fn lookup_checked(image: &ClassImage, x: u32) -> Result<Probe, Refusal>
    ensures { result ≡ lookup_of image.now x }
{
    image.recall();
    if !utf8::is_scalar(x) {
        return Err(Refusal::NotScalar(x as usize));
    }
    let role = find(image, Section::Entries, x).class;
    let probe = find(image, Section::Ranges, x);
    Ok(Probe {
        class: image::records::after_role(role, probe.class),
        ..probe
    })
}

// The same of any image.
pub fn lookup(image: &[u8], x: u32) -> Result<Probe, Refusal>
    ensures { result ≡ lookup_of image.now x }
{
    lookup_checked(&given::judge_given(image)?, x)
}
