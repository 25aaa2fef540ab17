// The edges of both stores.
use crate::Store;
use crate::image::Image;
use crate::table::Table;
use cipher::words::Block;
use refusal::Refusal;
use tree::leaves::Leaves;

const ONE: Block = Block {
    lo: 0x0102,
    hi: 0x0300,
};

const TWO: Block = Block { lo: 4, hi: 5 };

#[test]
fn a_table_with_no_cells(rt: HostRuntime) {
    let mut cells = [ONE; 0];
    let mut table = Table::new(&mut cells);
    assert_eq!(rt; table.room(), 0);
    assert_eq!(rt; table.append(ONE), Err(Refusal::StoreFull));
    assert_eq!(rt; table.count(), 0);
}

#[test]
fn a_table_with_one_cell(rt: HostRuntime) {
    let mut cells = [TWO];
    let mut table = Table::new(&mut cells);
    assert_eq!(rt; table.room(), 1);
    assert_eq!(rt; table.leaf(0), None);
    assert_eq!(rt; table.append(ONE), Ok(0));
    assert_eq!(rt; table.room(), 0);
    assert_eq!(rt; table.append(TWO), Err(Refusal::StoreFull));
    assert_eq!(rt; table.leaf(0), Some(ONE));
    assert_eq!(rt; table.leaf(1), None);
}

fn room_of(bytes: &mut [u8]) -> usize {
    Image::<Block>::new(bytes).room()
}

#[test]
fn how_many_records_fit(rt: HostRuntime) {
    assert_eq!(rt; room_of(&mut [0; 0]), 0);
    assert_eq!(rt; room_of(&mut [0; 19]), 0);
    assert_eq!(rt; room_of(&mut [0; 20]), 1);
    assert_eq!(rt; room_of(&mut [0; 39]), 1);
    assert_eq!(rt; room_of(&mut [0; 40]), 2);
}

#[test]
fn an_image_with_two_records(rt: HostRuntime) {
    let mut bytes = [7; 41];
    let mut image = Image::<Block>::new(&mut bytes);
    assert_eq!(rt; image.append(ONE), Ok(0));
    assert!(rt;
        image.used() == [16, 0, 1, 0, 2, 1, 0, 0, 0, 0, 0, 0, 0, 3, 0, 0, 0, 0, 0, 0].as_slice()
    );
    assert_eq!(rt; image.append(TWO), Ok(1));
    assert_eq!(rt; image.append(ONE), Err(Refusal::StoreFull));
    assert_eq!(rt; image.used().len(), 40);
    assert_eq!(rt; image.leaf(0), Some(ONE));
    assert_eq!(rt; image.leaf(1), Some(TWO));
    assert_eq!(rt; image.leaf(2), None);
}
