//! The statement of `bench`.

ghost use Rattle.std.specs.Prelude.{◌≡◌, ◌<◌, ◌≤◌, ◌+◌, ◌-◌, ◌^◌, ◌++◌, IfOk, OnOk, codes, decimal};
ghost use Rattle.std.specs.List.{flat_map, range_with_len};
ghost use Rattle.report_text.specs.Bench.{numbered, maps_of_step, assumption_of_step, objects_text, there_and_back, bench_statement};

use block_text::{put, put_number};
use std::alloc::{AllocError, Global};

fn put_numbered(out: &mut Vec<u8>, name: &str, number: u32) -> Result<(), AllocError>
    ensures { OnOk result (out.new.items ≡ out.old.items ++ numbered name.now number) }
{
    put(out, name)?;
    put_number(out, u128::from(number))
}

fn put_maps(out: &mut Vec<u8>, step: u32) -> Result<(), AllocError>
    requires { 1 ≤ step }
    ensures { OnOk result (out.new.items ≡ out.old.items ++ maps_of_step step) }
{
    put_numbered(out, "map a", step)?;
    put_numbered(out, " : O", step)?;
    put_numbered(out, " -> O", step - 1)?;
    put_numbered(out, "\nmap r", step)?;
    put_numbered(out, " : O", step - 1)?;
    put_numbered(out, " -> O", step)?;
    put(out, "\n")
}

fn put_assumption(out: &mut Vec<u8>, step: u32) -> Result<(), AllocError>
    requires { 1 ≤ step }
    ensures { OnOk result (out.new.items ≡ out.old.items ++ assumption_of_step step) }
{
    put_numbered(out, "assume a", step)?;
    put_numbered(out, " r", step)?;
    put_numbered(out, " = [O", step - 1)?;
    put(out, "]\n")
}

fn put_objects(out: &mut Vec<u8>, size: u32) -> Result<(), AllocError>
    requires { size + 1 < 2 ^ 32 }
    ensures { OnOk result (out.new.items ≡ out.old.items ++ objects_text size) }
{
    for object in 0..size + 1 {
        put_numbered(out, " O", object)?;
    }
    Ok(())
}

fn put_all_maps(out: &mut Vec<u8>, size: u32) -> Result<(), AllocError>
    ensures { OnOk result (out.new.items ≡ out.old.items ++ flat_map maps_of_step (range_with_len 1 size)) }
{
    for step in 0..size {
        put_maps(out, step + 1)?;
    }
    Ok(())
}

fn put_assumptions(out: &mut Vec<u8>, size: u32) -> Result<(), AllocError>
    ensures { OnOk result (out.new.items ≡ out.old.items ++ flat_map assumption_of_step (range_with_len 1 size)) }
{
    for step in 0..size {
        put_assumption(out, step + 1)?;
    }
    Ok(())
}

fn put_there(out: &mut Vec<u8>, size: u32) -> Result<(), AllocError>
    ensures { OnOk result (out.new.items ≡ out.old.items ++ flat_map (numbered (codes " a")) (range_with_len 1 size)) }
{
    for step in 0..size {
        put_numbered(out, " a", step + 1)?;
    }
    Ok(())
}

fn put_back(out: &mut Vec<u8>, size: u32) -> Result<(), AllocError>
    ensures { OnOk result (out.new.items ≡ out.old.items ++ flat_map (λ place. numbered (codes " r") (size - place)) (range_with_len 0 size)) }
{
    for place in 0..size {
        put_numbered(out, " r", size - place)?;
    }
    Ok(())
}

fn put_claims(out: &mut Vec<u8>, size: u32) -> Result<(), AllocError>
    ensures { OnOk result (out.new.items ≡ out.old.items ++ (codes "claim" ++ there_and_back size ++ codes " = [O0]\nclaim r"
        ++ decimal size ++ codes " a" ++ decimal size ++ codes " = [O" ++ decimal size ++ codes "]\n")) }
{
    put(out, "claim")?;
    put_there(out, size)?;
    put_back(out, size)?;
    put_numbered(out, " = [O0]\nclaim r", size)?;
    put_numbered(out, " a", size)?;
    put_numbered(out, " = [O", size)?;
    put(out, "]\n")
}

/// The statement of a bench of this size: a chain of `size` maps with right inverses, and two claims.
pub fn write_bench(alloc: Global, size: u32) -> Result<Vec<u8>, AllocError>
    requires { size + 1 < 2 ^ 32 }
    ensures { IfOk result (λ text. text.items ≡ bench_statement size) }
{
    let mut out = Vec::new(alloc);
    put(&mut out, "object")?;
    put_objects(&mut out, size)?;
    put(&mut out, "\n")?;
    put_all_maps(&mut out, size)?;
    put_assumptions(&mut out, size)?;
    put_claims(&mut out, size)?;
    Ok(out)
}
