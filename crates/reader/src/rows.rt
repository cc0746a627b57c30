// The lines of the rows.
ghost use Rattle.std.specs.Prelude.{cond, ◌≡◌, ◌≤◌, ◌<◌, length, eqb, drop};
ghost use Rattle.block.specs.Layout.{block_bytes, max_rows, max_resources, right_byte, prop_kind};
ghost use Rattle.text.specs.Numeral.{comma, line_end};
ghost use Rattle.text.specs.Inner.Fields.{Ends};
ghost use Rattle.text.specs.Format.{Format, value, read};
ghost use Rattle.text.specs.Job as J;
ghost use Rattle.scan.specs.Inner.Step.{resume, Inside, Fitting};

use block::kinds::{binary, strategic};
use block::layout;
use block::layout::Place;
use block::refusal::Refusal;
use scan::fields::{field, spelled};
use scan::step::{Range, Stop};
use spellings::spelled::Spelled;
use text::sizes::{Sizes, masks};
use text::{COMMA, LINE_END};

fn bounds(text: &[u8], at: usize, job: &mut [u8], i: usize, resources: usize) -> Result<usize, Stop>
    requires inside { (at ≤ length text.now) × (length job.old ≡ block_bytes) }
    requires i_lt_max_rows { (i < max_rows) × (resources ≤ max_resources) }
    ensures job_value { (f : Format) → read (J.bound_fields i resources 0 f) job.old (drop at text.now) ≡ resume text.now result (read f job.new) }
    ensures inside_2 { Inside text.now result }
{
    let mut next = at;
    for j in 0..resources {
        let place = Place::Field(i, layout::BOUND_BYTE + j);
        let bound = spelled(text, next, job, place, Spelled::Bound)?;
        next = bound.next;
    }
    Ok(next)
}

// The team and the bounds, where the kind has them.
fn team(text: &[u8], at: usize, job: &mut [u8], z: Sizes, i: usize, k: usize) -> Result<usize, Stop>
    requires inside { (at ≤ length text.now) × (length job.old ≡ block_bytes) }
    requires fitting { Fitting z × (i < max_rows) }
    ensures job_value { (f : Format) → read (J.team_fields z i k f) job.old (drop at text.now) ≡ resume text.now result (read f job.new) }
    ensures inside_2 { Inside text.now result }
{
    if !strategic(k) {
        return Ok(at);
    }
    let range = Range {
        sep: COMMA,
        low: 1,
        limit: masks(z.agents),
        refusal: Refusal::Row,
    };
    let team = field(text, at, job, Place::Field(i, layout::TEAM_BYTE), range)?;
    bounds(text, team.next, job, i, z.resources)
}

// The byte after the left field.
fn left_end(k: usize) -> usize
    ensures { (result ≡ cond (J.binary k) comma line_end) × Ends result }
{
    if binary(k) { COMMA } else { LINE_END }
}

// What the left field must be below: the propositions or the row itself.
fn left_limit(propositions: usize, i: usize, k: usize) -> usize
    ensures { result ≡ cond (eqb k prop_kind) propositions i }
{
    if k == layout::PROP_KIND {
        propositions
    } else {
        i
    }
}

// The right field, where the kind has one.
fn right(text: &[u8], at: usize, job: &mut [u8], i: usize, k: usize) -> Result<usize, Stop>
    requires inside { (at ≤ length text.now) × (length job.old ≡ block_bytes) }
    requires i_lt_max_rows { i < max_rows }
    ensures job_value { (f : Format) → read (cond (J.binary k) (value (J.number line_end 0 i Refusal.Row) (Place.Field i right_byte) (λ v. f)) f) job.old (drop at text.now)
        ≡ resume text.now result (read f job.new) }
    ensures inside_2 { Inside text.now result }
{
    if !binary(k) {
        return Ok(at);
    }
    let range = Range {
        sep: LINE_END,
        low: 0,
        limit: i,
        refusal: Refusal::Row,
    };
    let right = field(text, at, job, Place::Field(i, layout::RIGHT_BYTE), range)?;
    Ok(right.next)
}

fn operands(
    text: &[u8],
    at: usize,
    job: &mut [u8],
    z: Sizes,
    i: usize,
    k: usize,
) -> Result<usize, Stop>
    requires inside { (at ≤ length text.now) × (length job.old ≡ block_bytes) }
    requires i_lt_max_rows { i < max_rows }
    ensures job_value { (f : Format) → read (J.operand_fields z i k f) job.old (drop at text.now) ≡ resume text.now result (read f job.new) }
    ensures inside_2 { Inside text.now result }
{
    let range = Range {
        sep: left_end(k),
        low: 0,
        limit: left_limit(z.propositions, i, k),
        refusal: Refusal::Row,
    };
    let left = field(text, at, job, Place::Field(i, layout::LEFT_BYTE), range)?;
    right(text, left.next, job, i, k)
}

fn row(text: &[u8], at: usize, job: &mut [u8], z: Sizes, i: usize) -> Result<usize, Stop>
    requires inside { (at ≤ length text.now) × (length job.old ≡ block_bytes) }
    requires fitting { Fitting z × (i < max_rows) }
    ensures job_value { (f : Format) → read (J.row_line z i f) job.old (drop at text.now) ≡ resume text.now result (read f job.new) }
    ensures inside_2 { Inside text.now result }
{
    let place = Place::Field(i, layout::KIND_BYTE);
    let kind = spelled(text, at, job, place, Spelled::Row)?;
    let k = kind.value;
    let next = team(text, kind.next, job, z, i, k)?;
    operands(text, next, job, z, i, k)
}

pub fn rows(text: &[u8], at: usize, job: &mut [u8], z: Sizes) -> Result<usize, Stop>
    requires inside { (at ≤ length text.now) × (length job.old ≡ block_bytes) }
    requires fitting { Fitting z }
    ensures job_value { (f : Format) → read (J.row_lines z z.rows 0 f) job.old (drop at text.now) ≡ resume text.now result (read f job.new) }
    ensures inside_2 { Inside text.now result }
{
    let mut next = at;
    for i in 0..z.rows {
        next = row(text, next, job, z, i)?;
    }
    Ok(next)
}
