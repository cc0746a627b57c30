// Where each field of a job stands in its block. No other module computes an offset.
ghost use Rattle.std.specs.Prelude.{◌≡◌, ◌+◌, ◌<◌, length, set};
ghost use Rattle.block.specs.Layout as L;
ghost use Rattle.block.specs.Layout.{block_bytes, max_states, max_agents, max_actions, max_resources, max_joint, max_rows, row_bytes, place_of, byte_at, at};
ghost use Rattle.block.specs.Inner.Places.{InLayout};

// The largest sizes: agents, resources, states, propositions, rows; actions of an agent.
pub const MAX_AGENTS: usize = 3;

pub const MAX_RESOURCES: usize = 2;

pub const MAX_STATES: usize = 24;

pub const MAX_PROPOSITIONS: usize = 8;

pub const MAX_ROWS: usize = 32;

pub const MAX_ACTIONS: usize = 4;

// The most units of a resource that an action takes or gives, or a limited bound grants.
pub const MAX_UNITS: usize = 15;

// How many joint actions have a number: an action of each agent.
pub const JOINT_ACTIONS: usize = MAX_ACTIONS * MAX_ACTIONS * MAX_ACTIONS;

// The header's bytes.
pub const AGENTS_BYTE: usize = 0;

pub const RESOURCES_BYTE: usize = 1;

pub const STATES_BYTE: usize = 2;

pub const PROPOSITIONS_BYTE: usize = 3;

pub const ROWS_BYTE: usize = 4;

const HEADER_BYTES: usize = 5;

// The bytes of a row; its bounds begin at BOUND_BYTE, one for each resource.
pub const KIND_BYTE: usize = 0;

pub const LEFT_BYTE: usize = 1;

pub const RIGHT_BYTE: usize = 2;

pub const TEAM_BYTE: usize = 3;

pub const BOUND_BYTE: usize = 4;

const ROW_BYTES: usize = 8;

// The costs of an action, of an agent and of a state stand together.
const ACTION_COSTS: usize = MAX_RESOURCES;

const AGENT_COSTS: usize = MAX_ACTIONS * ACTION_COSTS;

const STATE_COSTS: usize = MAX_AGENTS * AGENT_COSTS;

// Where the masks, counts, costs, next states, rows and kinds of the resources begin.
const MASK_BASE: usize = HEADER_BYTES;

const COUNT_BASE: usize = MASK_BASE + MAX_STATES;

const COST_BASE: usize = COUNT_BASE + MAX_STATES * MAX_AGENTS;

const NEXT_BASE: usize = COST_BASE + MAX_STATES * STATE_COSTS;

const ROW_BASE: usize = NEXT_BASE + MAX_STATES * JOINT_ACTIONS;

const RESOURCE_KIND_BASE: usize = ROW_BASE + MAX_ROWS * ROW_BYTES;

pub const BLOCK_BYTES: usize = RESOURCE_KIND_BASE + MAX_RESOURCES;

// The kinds of resources. They and those of rows are numbers, since the check reads them of blocks where any byte can stand.
pub const SUM_KIND: usize = 0;

pub const MAX_KIND: usize = 1;

// The kinds of rows.
pub const PROP_KIND: usize = 0;

pub const NOT_KIND: usize = 1;

pub const OR_KIND: usize = 2;

pub const NEXT_KIND: usize = 3;

pub const ALWAYS_KIND: usize = 4;

pub const UNTIL_KIND: usize = 5;

pub const KINDS: usize = 6;

// The byte of an unlimited bound.
pub const UNLIMITED: usize = 255;

// A charge is held as 256 minus it: its bytes begin here.
pub const BYTE_VALUES: usize = 256;

pub const CHARGE_BYTE: usize = BYTE_VALUES - MAX_UNITS;

// A place of the layout: a header byte, the mask of a state, the count of a state and agent, the
// cost of a state, agent, action and resource, the next state of a state and joint action, a
// field of a row, the kind of a resource.
#[derive(Clone, Copy)]
pub enum Place {
    Header(usize),
    Mask(usize),
    Count(usize, usize),
    Cost(usize, usize, usize, usize),
    Next(usize, usize),
    Field(usize, usize),
    ResourceKind(usize),
}

// The place with number p.
pub fn place_at(p: usize) -> Place
    requires { p < block_bytes }
    ensures { (place_of result ≡ p) × InLayout result }
{
    if p < MASK_BASE {
        return Place::Header(p);
    }
    if p < COUNT_BASE {
        return Place::Mask(p - MASK_BASE);
    }
    if p < COST_BASE {
        let q = p - COUNT_BASE;
        return Place::Count(q / MAX_AGENTS, q % MAX_AGENTS);
    }
    if p < NEXT_BASE {
        let q = p - COST_BASE;
        return Place::Cost(
            q / STATE_COSTS,
            q % STATE_COSTS / AGENT_COSTS,
            q % AGENT_COSTS / ACTION_COSTS,
            q % ACTION_COSTS,
        );
    }
    if p < ROW_BASE {
        let q = p - NEXT_BASE;
        return Place::Next(q / JOINT_ACTIONS, q % JOINT_ACTIONS);
    }
    if p < RESOURCE_KIND_BASE {
        let q = p - ROW_BASE;
        return Place::Field(q / ROW_BYTES, q % ROW_BYTES);
    }
    Place::ResourceKind(p - RESOURCE_KIND_BASE)
}

// The numbers of the places, kind by kind.
fn mask_place(s: usize) -> usize
    requires { s < max_states }
    ensures { (result ≡ place_of (Place.Mask s)) × (result < block_bytes) }
{
    MASK_BASE + s
}

fn count_place(s: usize, a: usize) -> usize
    requires { (s < max_states) × (a < max_agents) }
    ensures { (result ≡ place_of (Place.Count s a)) × (result < block_bytes) }
{
    COUNT_BASE + MAX_AGENTS * s + a
}

fn cost_place(s: usize, a: usize, k: usize, j: usize) -> usize
    requires { (s < max_states) × (a < max_agents) × (k < max_actions) × (j < max_resources) }
    ensures { (result ≡ place_of (Place.Cost s a k j)) × (result < block_bytes) }
{
    COST_BASE + STATE_COSTS * s + AGENT_COSTS * a + ACTION_COSTS * k + j
}

fn next_place(s: usize, joint: usize) -> usize
    requires { (s < max_states) × (joint < max_joint) }
    ensures { (result ≡ place_of (Place.Next s joint)) × (result < block_bytes) }
{
    NEXT_BASE + JOINT_ACTIONS * s + joint
}

fn field_place(i: usize, f: usize) -> usize
    requires { (i < max_rows) × (f < row_bytes) }
    ensures { (result ≡ place_of (Place.Field i f)) × (result < block_bytes) }
{
    ROW_BASE + ROW_BYTES * i + f
}

fn resource_kind_place(j: usize) -> usize
    requires { j < max_resources }
    ensures { (result ≡ place_of (Place.ResourceKind j)) × (result < block_bytes) }
{
    RESOURCE_KIND_BASE + j
}

// The number of a place.
pub fn offset(x: Place) -> usize
    requires { InLayout x }
    ensures { (result ≡ place_of x) × (result < block_bytes) }
{
    match x {
        Place::Header(f) => f,
        Place::Mask(s) => mask_place(s),
        Place::Count(s, a) => count_place(s, a),
        Place::Cost(s, a, k, j) => cost_place(s, a, k, j),
        Place::Next(s, joint) => next_place(s, joint),
        Place::Field(i, f) => field_place(i, f),
        Place::ResourceKind(j) => resource_kind_place(j),
    }
}

pub fn byte_at(block: &[u8], p: usize) -> usize
    requires { p < length block.now }
    ensures { result ≡ byte_at block.now p }
{
    usize::from(block[p])
}

// The sizes, a byte each under a name and a clause of its own. N: how many agents there are.
pub fn agents(block: &[u8]) -> usize
    requires { length block.now ≡ block_bytes }
    ensures { result ≡ L.agents block.now }
{
    byte_at(block, AGENTS_BYTE)
}

// R: how many resources there are.
pub fn resources(block: &[u8]) -> usize
    requires { length block.now ≡ block_bytes }
    ensures { result ≡ L.resources block.now }
{
    byte_at(block, RESOURCES_BYTE)
}

// M: how many states there are.
pub fn states(block: &[u8]) -> usize
    requires { length block.now ≡ block_bytes }
    ensures { result ≡ L.states block.now }
{
    byte_at(block, STATES_BYTE)
}

// P: how many propositions there are.
pub fn propositions(block: &[u8]) -> usize
    requires { length block.now ≡ block_bytes }
    ensures { result ≡ L.propositions block.now }
{
    byte_at(block, PROPOSITIONS_BYTE)
}

// F: how many formula rows there are.
pub fn rows(block: &[u8]) -> usize
    requires { length block.now ≡ block_bytes }
    ensures { result ≡ L.rows block.now }
{
    byte_at(block, ROWS_BYTE)
}

// The mask of the propositions true in state s.
pub fn mask(block: &[u8], s: usize) -> usize
    requires block_len { length block.now ≡ block_bytes }
    requires s_lt_max_states { s < max_states }
    ensures { result ≡ L.mask block.now s }
{
    byte_at(block, mask_place(s))
}

// How many actions agent a has in state s.
pub fn count(block: &[u8], s: usize, a: usize) -> usize
    requires block_len { length block.now ≡ block_bytes }
    requires s_lt_max_states { (s < max_states) × (a < max_agents) }
    ensures { result ≡ L.count block.now s a }
{
    byte_at(block, count_place(s, a))
}

// The byte of what agent a's action k costs of resource j in state s.
pub fn cost_byte(block: &[u8], s: usize, a: usize, k: usize, j: usize) -> usize
    requires block_len { length block.now ≡ block_bytes }
    requires s_lt_max_states { (s < max_states) × (a < max_agents) × (k < max_actions) × (j < max_resources) }
    ensures { result ≡ L.cost block.now s a k j }
{
    byte_at(block, cost_place(s, a, k, j))
}

// What a cost with this byte takes, or less than nothing where it gives. No cast to i8: bytes from 128 on that are no charge are as they stand.
fn signed(c: u8) -> i32
    ensures { result ≡ L.signed c }
{
    if c < CHARGE_BYTE as u8 {
        return c as i32;
    }
    c as i32 - BYTE_VALUES as i32
}

// What agent a's action k costs of resource j in state s; a charge is less than nothing.
pub fn cost(block: &[u8], s: usize, a: usize, k: usize, j: usize) -> i32
    requires block_len { length block.now ≡ block_bytes }
    requires s_lt_max_states { (s < max_states) × (a < max_agents) × (k < max_actions) × (j < max_resources) }
    ensures { result ≡ L.signed (L.cost block.now s a k j) }
{
    let p = cost_place(s, a, k, j);
    signed(block[p])
}

// The next state after a joint action in state s.
pub fn next(block: &[u8], s: usize, joint: usize) -> usize
    requires block_len { length block.now ≡ block_bytes }
    requires s_lt_max_states { (s < max_states) × (joint < max_joint) }
    ensures { result ≡ L.next block.now s joint }
{
    byte_at(block, next_place(s, joint))
}

// Field f of row i.
fn field(block: &[u8], i: usize, f: usize) -> usize
    requires block_len { length block.now ≡ block_bytes }
    requires i_lt_max_rows { (i < max_rows) × (f < row_bytes) }
    ensures { result ≡ at block.now (Place.Field i f) }
{
    byte_at(block, field_place(i, f))
}

// The kind of row i.
pub fn kind(block: &[u8], i: usize) -> usize
    requires block_len { length block.now ≡ block_bytes }
    requires i_lt_max_rows { i < max_rows }
    ensures { result ≡ L.kind block.now i }
{
    field(block, i, KIND_BYTE)
}

// The left field of row i.
pub fn left(block: &[u8], i: usize) -> usize
    requires block_len { length block.now ≡ block_bytes }
    requires i_lt_max_rows { i < max_rows }
    ensures { result ≡ L.left block.now i }
{
    field(block, i, LEFT_BYTE)
}

// The right field of row i.
pub fn right(block: &[u8], i: usize) -> usize
    requires block_len { length block.now ≡ block_bytes }
    requires i_lt_max_rows { i < max_rows }
    ensures { result ≡ L.right block.now i }
{
    field(block, i, RIGHT_BYTE)
}

// The team of row i, bit a for agent a.
pub fn team(block: &[u8], i: usize) -> usize
    requires block_len { length block.now ≡ block_bytes }
    requires i_lt_max_rows { i < max_rows }
    ensures { result ≡ L.team block.now i }
{
    field(block, i, TEAM_BYTE)
}

// The bound of row i on resource j.
pub fn bound(block: &[u8], i: usize, j: usize) -> usize
    requires block_len { length block.now ≡ block_bytes }
    requires i_lt_max_rows { (i < max_rows) × (j < max_resources) }
    ensures { result ≡ L.bound block.now i j }
{
    field(block, i, BOUND_BYTE + j)
}

// Stores the bound of row i on resource j.
pub fn set_bound(block: &mut [u8], i: usize, j: usize, v: u8)
    requires block_len { length block.old ≡ block_bytes }
    requires i_lt_max_rows { (i < max_rows) × (j < max_resources) }
    ensures { block.new ≡ set block.old (place_of (Place.Field i (L.bound_byte + j))) v }
{
    block[field_place(i, BOUND_BYTE + j)] = v;
}

// The kind of resource j.
pub fn resource_kind(block: &[u8], j: usize) -> usize
    requires block_len { length block.now ≡ block_bytes }
    requires j_lt_max_resources { j < max_resources }
    ensures { result ≡ L.resource_kind block.now j }
{
    byte_at(block, resource_kind_place(j))
}
