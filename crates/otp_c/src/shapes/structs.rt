//! The structs of `otp.h`, field by field. What each field means stands there.

/// How many bytes of a fault's sentence there are at the most.
pub const FAULT_SIZE: usize = 160;

/// A name: the first `len` of its bytes; none where that is 0.
#[repr(C)]
#[derive(Clone, Copy)]
pub struct CName {
    pub len: u8,
    pub bytes: [u8; 32],
}

/// A reason's text: the first `len` of its bytes; none where that is 0.
#[repr(C)]
#[derive(Clone, Copy)]
pub struct CText {
    pub len: u8,
    pub bytes: [u8; 64],
}

/// A child's specification.
#[repr(C)]
#[derive(Clone, Copy)]
pub struct CSpec {
    pub restart: u32,
    pub significant: u32,
    pub kind: u32,
    pub shutdown: u32,
    pub shutdown_ms: u32,
    pub modules: u32,
    pub id: CName,
    pub start: CName,
    pub module: [CName; 4],
}

/// An order.
#[repr(C)]
#[derive(Clone, Copy)]
pub struct COrder {
    pub number: u64,
    pub deadline: u64,
    pub kind: u32,
    pub supervisor: u32,
    pub has_deadline: u32,
    pub reason: u32,
    pub cause: u32,
    pub id: CName,
    pub start: CName,
    pub text: CText,
}

/// The answer to a call.
#[repr(C)]
#[derive(Clone, Copy)]
pub struct CAnswer {
    pub call: u64,
    pub number: u64,
    pub specs: u64,
    pub active: u64,
    pub supervisors: u64,
    pub workers: u64,
    pub kind: u32,
    pub fault: u32,
    pub spec_fault: u32,
    pub spec_key: u32,
    pub reason: u32,
    pub lines: u32,
    pub text: CText,
}

/// A line of which_children.
#[repr(C)]
#[derive(Clone, Copy)]
pub struct CLine {
    pub number: u64,
    pub process: u32,
    pub kind: u32,
    pub modules: u32,
    pub id: CName,
    pub module: [CName; 4],
}

/// A supervisor as it stands.
#[repr(C)]
#[derive(Clone, Copy)]
pub struct CSupervisor {
    pub intensity: u64,
    pub period: u64,
    pub process: u64,
    pub specs: u64,
    pub active: u64,
    pub supervisors: u64,
    pub workers: u64,
    pub restarts: u64,
    pub in_period: u64,
    pub starts: u64,
    pub rows: u64,
    pub parent: u32,
    pub strategy: u32,
    pub auto_shutdown: u32,
    pub phase: u32,
    pub has_process: u32,
    pub is_stopping: u32,
    pub has_open_work: u32,
    pub cause: u32,
    pub id: CName,
}

/// A child as it stands.
#[repr(C)]
#[derive(Clone, Copy)]
pub struct CChild {
    pub number: u64,
    pub deadline: u64,
    pub state: u32,
    pub has_deadline: u32,
    pub nested: u32,
    pub spec: CSpec,
    pub id: CName,
}

/// Why a tree file is refused.
#[repr(C)]
#[derive(Clone, Copy)]
pub struct CFault {
    pub code: u32,
    pub table: u32,
    pub place: u32,
    pub index: u32,
    pub key: u32,
    pub text_len: u32,
    pub text: [u8; 160],
}
