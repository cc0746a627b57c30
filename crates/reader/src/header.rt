// The first line.
ghost use Rattle.std.specs.Prelude.{List, ◌≡◌, ℕ, ◌+◌, ◌≤◌, ◌<◌, length, drop, IfOk};
ghost use Rattle.block.specs.Layout.{Block, block_bytes, header_bytes, max_resources};
ghost use Rattle.text.specs.Format.{Format, exactly, read};
ghost use Rattle.text.specs.Job as J;
ghost use Rattle.text.specs.Numeral.{numbers};
ghost use Rattle.text.specs.Inner.Fields.{Ends};
ghost use Rattle.scan.specs.Inner.Step.{resume, resume_with, past_value, Inside, Ranged, Fitting};

use block::layout::{
    AGENTS_BYTE, MAX_AGENTS, MAX_PROPOSITIONS, MAX_RESOURCES, MAX_ROWS, MAX_STATES,
    PROPOSITIONS_BYTE, Place, RESOURCES_BYTE, ROWS_BYTE, STATES_BYTE, SUM_KIND,
};
use block::refusal::Refusal;
use scan::fields::{field, spelled, word};
use scan::step::{Range, Stop, Valued};
use spellings::spelled::Spelled;
use text::COMMA;
use text::ends::sizes_end;
use text::sizes::{Edition, Sizes};

// A size, 1 to high, field f of the header.
fn size(
    text: &[u8],
    at: usize,
    job: &mut [u8],
    f: usize,
    sep: usize,
    high: usize,
) -> Result<Valued<usize>, Stop>
    requires inside { (at ≤ length text.now) × (length job.old ≡ block_bytes) }
    requires f_lt_header_bytes { (f < header_bytes) × Ends sep × (1 ≤ high) × (high < numbers) }
    ensures by_index { (k : ℕ → Format) → read (J.size sep f high k) job.old (drop at text.now) ≡ resume_with text.now result (λ v rest. read (k v) job.new rest) }
    ensures inside_2 { Inside text.now (past_value result) × Ranged 1 (high + 1) result }
{
    let range = Range {
        sep,
        low: 1,
        limit: high + 1,
        refusal: Refusal::Sizes,
    };
    field(text, at, job, Place::Header(f), range)
}

// Past the first word.
fn named(text: &[u8], e: Edition) -> Result<usize, Stop>
    ensures text_value { (f : Format) (b : Block) → read (exactly (J.job_word e) f) b text.now ≡ resume text.now result (read f b) }
    ensures inside { Inside text.now result }
{
    match e {
        Edition::First => word(text, 0, b"job,"),
        Edition::Second => word(text, 0, b"job2,"),
    }
}

// The kind of each resource.
fn resources(
    text: &[u8],
    at: usize,
    job: &mut [u8],
    e: Edition,
    resources: usize,
) -> Result<Valued<[usize; MAX_RESOURCES]>, Stop>
    requires inside { (at ≤ length text.now) × (length job.old ≡ block_bytes) }
    requires resources_le_max_resources { resources ≤ max_resources }
    ensures by_index { (f : List ℕ → Format) → read (J.resource_fields e resources 0 J.no_kinds f) job.old (drop at text.now) ≡ resume_with text.now result (λ v rest. read (f v) job.new rest) }
    ensures inside_2 { Inside text.now (past_value result) }
{
    let mut kinds = [SUM_KIND; MAX_RESOURCES];
    let mut next = at;
    for j in 0..resources {
        let what = Spelled::Resource(e, resources - (j + 1));
        let kind = spelled(text, next, job, Place::ResourceKind(j), what)?;
        kinds[j] = kind.value;
        next = kind.next;
    }
    Ok(Valued { value: kinds, next })
}

// The edition and the sizes of the job.
pub fn header(text: &[u8], job: &mut [u8], e: Edition) -> Result<Valued<Sizes>, Stop>
    requires { length job.old ≡ block_bytes }
    ensures text_value { (f : Sizes → Format) → read (J.header_line e f) job.old text.now ≡ resume_with text.now result (λ v rest. read (f v) job.new rest) }
    ensures inside { Inside text.now (past_value result) × IfOk result (λ o. Fitting o.value) }
{
    let named = named(text, e)?;
    let n = size(text, named, job, AGENTS_BYTE, COMMA, MAX_AGENTS)?;
    let r = size(text, n.next, job, RESOURCES_BYTE, COMMA, MAX_RESOURCES)?;
    let m = size(text, r.next, job, STATES_BYTE, COMMA, MAX_STATES)?;
    let p = size(
        text,
        m.next,
        job,
        PROPOSITIONS_BYTE,
        COMMA,
        MAX_PROPOSITIONS,
    )?;
    let sep = usize::from(sizes_end(e));
    let w = size(text, p.next, job, ROWS_BYTE, sep, MAX_ROWS)?;
    let kinds = resources(text, w.next, job, e, r.value)?;
    let told = kinds.value;
    let value = Sizes {
        edition: e,
        agents: n.value,
        resources: r.value,
        states: m.value,
        propositions: p.value,
        rows: w.value,
        kinds: told,
    };
    let next = kinds.next;
    Ok(Valued { value, next })
}
