// A log that is made over a store with leaves: it answers the store's questions and refuses all else.
use crate::full::{Lent, SPECK, ZERO, tell_state};
use crate::tell;
use release_log::Log;
use store::Store;
use store::table::Table;
use tree::leaves::Leaves;

pub fn run(rt: &HostRuntime) -> anyhow::Result<()> {
    let mut cells = [ZERO; 3];
    let mut table = Table::new(&mut cells);
    tell(rt, "a leaf before the log is made", table.append(ZERO))?;
    let mut log = Log::new(table, SPECK);
    let mut file = [0u8; 64];
    let mut lent = Lent::new();
    let there = log.leaf(0).is_some();
    println!(rt;
        "over a leaf: count {} room {} leaf {there}",
        log.count(),
        log.room()
    )?;
    tell(
        rt,
        "append of 4097 bytes",
        log.append(&[0; 4097], &mut file),
    )?;
    tell(rt, "append", log.append(b"a", &mut file))?;
    tell(rt, "head", log.head(1, &mut lent.cells, &mut lent.seen))?;
    tell(
        rt,
        "proof",
        log.prove(0, 1, &mut lent.spans, &mut lent.cells, &mut lent.seen),
    )?;
    tell(
        rt,
        "link",
        log.link(1, 1, &mut lent.spans, &mut lent.cells, &mut lent.seen),
    )?;
    tell_state(rt, &log)
}
