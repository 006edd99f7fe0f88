// D of a squared distance as a static library of its own, for whoever examines its machine code by itself: `.ci/root_code.py`.
#![tactic(auto)]

ghost use Rattle.std.specs.Prelude.{◌≡◌};
ghost use Rattle.model.specs.Distance.{distance_of};

#[unsafe(no_mangle)]
pub extern "C" fn distance_of(d2: u32) -> u32
    ensures { result ≡ distance_of d2 }
{
    root::distance_of(d2)
}
