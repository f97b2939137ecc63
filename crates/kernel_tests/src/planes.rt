//! Planes of the least and of a great width, and parts of their rows.

use blend_rules::{Plane, Px};
use span_kernels::{
    Planes, fill, kernel_laws, know_planes, know_row, over_solid, part_laws, weave_row,
};
use std::test::Fail;

#[test]
fn one_pixel_has_a_byte_in_each_plane(rt: HostRuntime) -> Result<(), Fail> {
    let mut planes = Planes::new(rt.alloc(), 1, 1)?;
    assert_eq!(rt; planes.pixel(0, 0), Px::CLEAR);
    fill(planes.row_mut(Plane::B, 0, 0, 1), 10);
    fill(planes.row_mut(Plane::G, 0, 0, 1), 20);
    fill(planes.row_mut(Plane::R, 0, 0, 1), 30);
    fill(planes.row_mut(Plane::A, 0, 0, 1), 40);
    let (b, g, r, a) = (10, 20, 30, 40);
    assert_eq!(rt; planes.pixel(0, 0), Px { b, g, r, a });
    let row = planes.rows(0);
    let mut out = [0; 4];
    weave_row(row.b, row.g, row.r, row.a, &mut out);
    assert_eq!(rt; out, [10, 20, 30, 40]);
    Ok(())
}

#[test]
fn an_unaligned_part_alone_is_written(rt: HostRuntime) -> Result<(), Fail> {
    let mut planes = Planes::new(rt.alloc(), 4096, 2)?;
    fill(planes.row_mut(Plane::G, 1, 0, 4096), 200);
    over_solid(planes.row_mut(Plane::G, 1, 3, 4093), 60, 128);
    assert_eq!(rt; (planes.width(), planes.height()), (4096, 2));
    let row = planes.row(Plane::G, 1);
    assert_eq!(rt;
        (row[2], row[3], row[4092], row[4093]),
        (200, 160, 160, 200)
    );
    assert!(rt; row[3..4093].iter().all(|byte| *byte == 160));
    assert!(rt; planes.row(Plane::G, 0).iter().all(|byte| *byte == 0));
    assert!(rt; planes.row(Plane::B, 1).iter().all(|byte| *byte == 0));
    Ok(())
}

#[test]
fn planes_may_be_empty(rt: HostRuntime) -> Result<(), Fail> {
    let planes = Planes::empty(rt.alloc());
    assert_eq!(rt; (planes.width(), planes.height()), (0, 0));
    let thin = Planes::new(rt.alloc(), 0, 3)?;
    assert_eq!(rt; thin.row(Plane::R, 2).len(), 0);
    Ok(())
}

#[test]
fn laws_of_planes_and_kernels(rt: HostRuntime) {
    know_planes(&Planes::empty(rt.alloc()));
    know_row(&[1, 2]);
    part_laws();
    kernel_laws();
}
