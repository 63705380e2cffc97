// The slip of a plan, in hexadecimal.
use plan_slips::write_plan_slip;
use sheet::Plan;

pub(crate) fn show_slip(rt: &HostRuntime, plan: &Plan) -> anyhow::Result<()> {
    let mut area = [0; 280];
    match write_plan_slip(&mut area, plan) {
        Ok(used) => {
            print!(rt; "slip")?;
            for byte in area.iter().take(used) {
                print!(rt; " {byte:02X}")?;
            }
            println!(rt; "")?;
        }
        Err(refusal) => println!(rt; "slip refused {refusal}")?,
    }
    Ok(())
}
