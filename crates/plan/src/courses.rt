// The course of a flush: what its plan is made from.
ghost use Rattle.plan.specs.Turns.{Columned};

// The objects' kinds, their places at the start, between the phases and at the end, and their lengths, each for the n objects of the
// flush or more; the limit of a run; and how many of the objects were there before the request.
#[derive(Clone, Copy)]
pub struct Course<'a> {
    pub kinds: &'a [u8],
    pub starts: &'a [u32],
    pub middles: &'a [u32],
    pub finals: &'a [u32],
    pub lens: &'a [u16],
    pub limit: u32,
    pub old: usize,
    pub n: usize,
    pub ghost columned: { Columned kinds.now starts.now middles.now finals.now lens.now old n },
}
