// Places at which items are taken out.
ghost use Rattle.std.specs.Prelude.{◌<◌, All, AllPairs, length};

/// Places at which items are taken out, ascending, and one behind them, where an item is put in.
#[derive(Clone, Copy)]
pub(crate) struct Gaps<'a> {
    pub(crate) places: &'a [u32],
    pub(crate) place: usize,
    pub ghost some: { 0 < length places.now },
    pub ghost ascending: { AllPairs (λ s t. s < t) places.now },
    pub ghost before: { All (λ s. s < place) places.now },
}
