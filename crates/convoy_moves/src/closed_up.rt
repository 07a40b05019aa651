// All trucks of a convoy as one train.

ghost use Rattle.std.specs.Prelude.{◌≡◌, ◌+◌, ◌≤◌, ◌++◌, length, take};
ghost use Rattle.convoy_moves.specs.Convoys.{IsConvoySize, closest_axles, convoy_of, moved_back};
ghost use Rattle.convoy_moves.specs.Refusals.{FitsTogether};

use axle_train::{Axle, Train};

/// The trucks with exactly this gap between two of them. As they fit together, they are a train.
pub(crate) fn closed_up(truck: &Train, trucks: u32, gap: u32) -> Train
    requires size { IsConvoySize trucks gap }
    requires fits { FitsTogether (convoy_of truck.now trucks gap) }
    ensures { result ≡ closest_axles (convoy_of truck.now trucks gap) }
{
    let len = truck.len();
    let spacing = truck.axle(len - 1).place + gap;
    let mut axles = [Axle {
        place: 0,
        weight: 0,
    }; 32];
    for k in 0..trucks {
        put_truck(&mut axles, k as usize * len, truck, k * spacing);
    }
    match Train::new(&axles[..trucks as usize * len]) {
        Ok(train) => train,
        Err(_) => unreachable!(),
    }
}

/// Writes the axles of a truck behind the first `front` axles, its own first axle moved back `by` so many inches. Of 16
/// trucks the last is at most 15 times 6,000 inches behind the first.
fn put_truck(axles: &mut [Axle; 32], front: usize, truck: &Train, by: u32)
    requires room { front + length truck.now ≤ 32 }
    requires near { by ≤ 90000 }
    ensures { take (front + length truck.now) axles.new ≡ take front axles.old ++ moved_back by truck.now }
{
    for i in 0..truck.len() {
        let axle = truck.axle(i);
        axles[front + i] = Axle {
            place: by + axle.place,
            weight: axle.weight,
        };
    }
}
