// Settings of threading modes, one after the other.
use clip_term::Filter;
use fv_io::Text;
use mt_modes::{ModeFault, ModeTable};
use std::test::Fail;

#[test]
fn settings_yield_to_declared_modes(rt: HostRuntime) -> Result<(), Fail> {
    let alloc = rt.alloc();
    let mut modes = ModeTable::new(alloc);
    for (name, mode, force, answer) in [
        ("grayscale", 3, false, Ok(())),
        ("Crop", 2, false, Ok(())),
        ("TRIM", 2, true, Ok(())),
        ("Trim", 4, true, Err(ModeFault::ModeRefused)),
    ] as [(&str, i32, bool, Result<(), ModeFault>); 4]
    {
        let name = Text::from_str(alloc, name)?;
        assert_eq!(rt; modes.set(&name, mode, force), answer);
    }
    for (filter, mode) in [(Filter::Greyscale, 3), (Filter::Crop, 1), (Filter::Trim, 2)] {
        assert_eq!(rt; modes.mode_for(filter), mode);
    }
    Ok(())
}
