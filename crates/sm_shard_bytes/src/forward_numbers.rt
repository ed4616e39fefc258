/// The next server for a request, as C sees it: the server that executes it, and how often it was then forwarded.
#[repr(C)]
#[derive(Clone, Copy, Drop)]
pub struct ForwardNumbers {
    pub server: u16,
    pub hops: u8,
}
