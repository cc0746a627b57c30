// The block of a job: what each of its bytes means; refusals and answers; what a call leaves in lent buffers.
#![tactic(auto)]

pub mod fill;
pub mod joint;
pub mod kinds;
pub mod layout;
pub mod refusal;
