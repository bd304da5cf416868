// Answers of the C interface's single calls as records of numbers, as include/funnelivy.h declares them.
// A record has the refusal's number or 0, and 0 in every field that the answer does not have. The C interface has a refusal and a flag
// (has_slant, has_sync) as numbers. The header has a struct of its own for each answer; a trait for its refusal would have an impl for each.
#![tactic(auto)]

mod counts;
mod report;
mod sound;

#[repr(C)]
#[derive(Clone, Copy, Default)]
pub struct FunnelivySizesAnswer {
    pub refusal: u32,
    pub window: u64,
    pub picture: u64,
}

#[repr(C)]
#[derive(Clone, Copy, Default)]
pub struct FunnelivyColumnsAnswer {
    pub refusal: u32,
    pub columns: u64,
}

#[repr(C)]
#[derive(Clone, Copy, Default)]
pub struct FunnelivyWindowAnswer {
    pub refusal: u32,
    pub start: u64,
    pub sum: u64,
    pub windows: u64,
}

#[repr(C)]
#[derive(Clone, Copy, Default)]
pub struct FunnelivyQualityAnswer {
    pub refusal: u32,
    pub quality: f32,
}

#[repr(C)]
#[derive(Clone, Copy, Default)]
pub struct FunnelivyReportAnswer {
    pub refusal: u32,
    pub has_slant: u32,
    pub rate: f64,
    pub slant: f64,
    pub skip: i64,
    pub quality: f32,
}

#[repr(C)]
#[derive(Clone, Copy, Default)]
pub struct FunnelivyDecisionAnswer {
    pub refusal: u32,
    pub has_sync: u32,
}
