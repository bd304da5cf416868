// A session and the answers of its calls as records of numbers, as include/funnelivy.h declares them, and which session a record stands for.
// A record has the refusal's number or 0, and 0 in every field that the answer does not have. The C interface has a refusal, a phase, an
// end and has_slant as numbers, and a host may hand back any. The header has a struct of its own for each answer; a trait for its refusal
// would have an impl for each.
#![tactic(auto)]

mod calls;
mod record;

// A session, kept by the host and handed back to the next call.
#[repr(C)]
#[derive(Clone, Copy, Default)]
pub struct FunnelivySession {
    pub anchor: u64,
    pub capacity: u64,
    pub taken: u64,
    pub evaluations: u64,
    pub streak: u64,
    pub position: u64,
    pub rate: f64,
    pub slant: f64,
    pub skip: i64,
    pub start_quality: f32,
    pub quality: f32,
    pub windows: u16,
    pub mode: u8,
    pub phase: u8,
    pub has_slant: u8,
}

#[repr(C)]
#[derive(Clone, Copy, Default)]
pub struct FunnelivyOpened {
    pub refusal: u32,
    pub session: FunnelivySession,
}

#[repr(C)]
#[derive(Clone, Copy, Default)]
pub struct FunnelivyFed {
    pub refusal: u32,
    pub taken: u64,
    pub session: FunnelivySession,
}

#[repr(C)]
#[derive(Clone, Copy, Default)]
pub struct FunnelivyReading {
    pub refusal: u32,
    pub end: u32,
    pub taken: u64,
    pub evaluations: u64,
    pub start: u64,
    pub rate: f64,
    pub slant: f64,
    pub skip: i64,
    pub start_quality: f32,
    pub quality: f32,
    pub has_slant: u32,
    pub windows: u32,
}
