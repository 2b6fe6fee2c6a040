//! Attributes and flags.

ghost use Rattle.std.specs.Prelude.{◌≡◌, ◌++◌, OnOk, codes};
ghost use Rattle.std.specs.Fmt.{decimal};
ghost use Rattle.qir_module.specs.Text.{line};
ghost use Rattle.qir_module.specs.Written.{truth_text, profile_text, attributes_text, flags_text};

use crate::number::write_decimal;
use crate::operand::truth_name;
use qir_module::{Module, Profile};
use qq_base::NoMemory;

/// The name of a profile.
fn profile_name(profile: Profile) -> &'static str
    ensures { result.now ≡ profile_text profile }
{
    match profile {
        Profile::Adaptive => "adaptive_profile",
        Profile::Base => "base_profile",
    }
}

/// Appends the two groups of attributes.
pub fn write_attributes(out: &mut Vec<u8>, module: &Module) -> Result<(), NoMemory>
    ensures { OnOk result (out.new.items ≡ out.old.items ++ attributes_text «module».now) }
{
    out.extend_from_slice(b"attributes #0 = { \"entry_point\" \"qir_profiles\"=\"")?;
    out.extend_from_slice(profile_name(module.profile).as_bytes())?;
    out.extend_from_slice(b"\" \"output_labeling_schema\"=\"labeled\" \"required_num_qubits\"=\"")?;
    write_decimal(out, u64::from(module.qubits))?;
    out.extend_from_slice(b"\" \"required_num_results\"=\"")?;
    write_decimal(out, u64::from(module.results))?;
    out.extend_from_slice(b"\" }")?;
    out.push(b'\n')?;
    out.extend_from_slice(b"attributes #1 = { \"irreversible\" }\n")?;
    Ok(())
}

/// Appends the line of a flag whose value is a number.
fn write_number_flag(out: &mut Vec<u8>, flag: &str, value: u32) -> Result<(), NoMemory>
    ensures { OnOk result (out.new.items
        ≡ out.old.items ++ line (flag.now ++ decimal value ++ codes "}")) }
{
    out.extend_from_slice(flag.as_bytes())?;
    write_decimal(out, u64::from(value))?;
    out.extend_from_slice(b"}\n")?;
    Ok(())
}

/// Appends the line of a flag whose value is a truth value.
fn write_truth_flag(out: &mut Vec<u8>, flag: &str, value: bool) -> Result<(), NoMemory>
    ensures { OnOk result (out.new.items
        ≡ out.old.items ++ line (flag.now ++ truth_text value ++ codes "}")) }
{
    out.extend_from_slice(flag.as_bytes())?;
    out.extend_from_slice(truth_name(value).as_bytes())?;
    out.extend_from_slice(b"}\n")?;
    Ok(())
}

/// Appends the four flags.
pub fn write_flags(out: &mut Vec<u8>, module: &Module) -> Result<(), NoMemory>
    ensures { OnOk result (out.new.items ≡ out.old.items ++ flags_text «module».now) }
{
    write_number_flag(
        out,
        "!0 = !{i32 1, !\"qir_major_version\", i32 ",
        module.major,
    )?;
    write_number_flag(
        out,
        "!1 = !{i32 7, !\"qir_minor_version\", i32 ",
        module.minor,
    )?;
    write_truth_flag(
        out,
        "!2 = !{i32 1, !\"dynamic_qubit_management\", i1 ",
        module.dynamic_qubits,
    )?;
    write_truth_flag(
        out,
        "!3 = !{i32 1, !\"dynamic_result_management\", i1 ",
        module.dynamic_results,
    )
}
