//! How far items stack, and the strength that the items of a container give.
#![tactic(auto)]

ghost use Rattle.std.specs.Prelude.{◌≡◌, ◌≤◌, ◌<◌, ◌==◌, ◌^◌, All, map};
ghost use Rattle.std.specs.List.{list_any, starts_with};
ghost use Rattle.std.specs.Str.{bytes_eq};
ghost use Rattle.item_table.specs.Stacks.{stack_size_of, without_namespace, is_among as is_listed_in, stacked_by_sixteen, unstacked};
ghost use Rattle.item_table.specs.Strength.{IsSized, strength_of, stacked_sum};

mod names;

use names::{ONE, SIXTEEN};

/// Some items of one kind: how many they are, and how many of them make a whole stack.
#[derive(Clone, Copy, Debug, PartialEq, Eq)]
pub struct ItemCount {
    pub count: u32,
    /// 64, 16 or 1, as [`stack_size`] gives it.
    pub size: u8,
}

/// How many items of this name make a whole stack: 64, 16 or 1. `minecraft:` may stand before the
/// name. A name that isn't known has 64.
#[tactic(auto, unfolding(crate::specs::Stacks::stack_size_of))]
pub fn stack_size(name: &[u8]) -> u8
    ensures { result ≡ stack_size_of name.now }
{
    let name = without_namespace(name);
    if stacks_to_sixteen(name) {
        16
    } else if stacks_to_one(name) {
        1
    } else {
        64
    }
}

fn without_namespace(name: &[u8]) -> &[u8]
    ensures { result.now ≡ without_namespace name.now }
{
    let namespace = "minecraft:".as_bytes();
    if name.starts_with(namespace) {
        &name[namespace.len()..]
    } else {
        name
    }
}

fn stacks_to_sixteen(name: &[u8]) -> bool
    ensures { result ≡ is_listed_in name.now stacked_by_sixteen }
{
    is_among(name, &SIXTEEN)
}

fn stacks_to_one(name: &[u8]) -> bool
    ensures { result ≡ is_listed_in name.now unstacked }
{
    is_among(name, &ONE)
}

fn is_among(name: &[u8], listed: &[&str]) -> bool
    ensures { result ≡ is_listed_in name.now (map (λ text. text.now) listed.now) }
{
    contains_text(listed, name)
}

fn contains_text(listed: &[&str], name: &[u8]) -> bool
    ensures { result ≡ list_any (λ text. bytes_eq text.now name.now) listed.now }
{
    listed.iter().any(|text| text.as_bytes() == name)
}

/// The strength from 0 to 15 that these items give to a container of so many slots: 0 where it is
/// empty, else 1 and 14 times the part of it that is full, rounded down.
#[tactic(auto, unfolding(crate::specs::Strength::strength_of))]
pub fn strength(slots: u8, items: &[ItemCount]) -> u8
    requires slots { 1 ≤ slots }
    requires sizes { All IsSized items.now }
    ensures { result ≡ strength_of slots items.now }
{
    let sum = stacked_sum(items);
    if sum == 0 {
        0
    } else {
        (1 + 14 * sum / (64 * u128::from(slots))).min(15) as u8
    }
}

/// The number of items as if all stacked to 64.
fn stacked_sum(items: &[ItemCount]) -> u128
    requires sizes { All IsSized items.now }
    ensures value { result ≡ stacked_sum items.now }
    ensures small { result < 2 ^ 110 }
{
    let mut sum = 0;
    for item in items {
        sum += u128::from(item.count) * 64 / u128::from(item.size);
    }
    sum
}

#[cfg(test)]
mod tests {
    use super::*;

    #[test]
    fn sizes_of_names(rt: HostRuntime) {
        let rows: [(&str, u8); 24] = [
            ("minecraft:stone", 64),
            ("stone", 64),
            ("", 64),
            ("minecraft:", 64),
            ("minecraft:minecraft:egg", 64),
            ("egg", 16),
            ("minecraft:egg", 16),
            ("eggs", 64),
            ("Egg", 64),
            ("armor_stand", 16),
            ("warped_sign", 16),
            ("minecraft:dark_oak_sign", 16),
            ("oak_wall_sign", 64),
            ("light_gray_banner", 16),
            ("netherite_hoe", 1),
            ("wooden_sword", 1),
            ("golden_pickaxe", 1),
            ("gold_pickaxe", 64),
            ("shulker_box", 1),
            ("minecraft:black_shulker_box", 1),
            ("white_bed", 1),
            ("bed", 64),
            ("water_bucket", 1),
            ("minecraft:cake", 1),
        ];
        for (name, size) in rows {
            assert_eq!(rt; stack_size(name.as_bytes()), size, "{name}");
        }
    }

    #[test]
    fn strength_of_one_large_item(rt: HostRuntime) {
        assert_eq!(rt; strength(5, &[ItemCount { count: 1, size: 1 }]), 3);
    }

    #[test]
    fn strength_at_a_step(rt: HostRuntime) {
        assert_eq!(rt;
            strength(
                3,
                &[ItemCount {
                    count: 13,
                    size: 64
                }]
            ),
            1
        );
        assert_eq!(rt;
            strength(
                3,
                &[ItemCount {
                    count: 14,
                    size: 64
                }]
            ),
            2
        );
    }

    #[test]
    fn strengths(rt: HostRuntime) {
        assert_eq!(rt; strength(27, &[]), 0);
        assert_eq!(rt;
            strength(
                27,
                &[
                    ItemCount { count: 0, size: 64 },
                    ItemCount { count: 0, size: 1 }
                ]
            ),
            0
        );
        assert_eq!(rt; strength(27, &[ItemCount { count: 1, size: 64 }]), 1);
        assert_eq!(rt; strength(255, &[ItemCount { count: 1, size: 64 }]), 1);
        assert_eq!(rt;
            strength(
                1,
                &[ItemCount {
                    count: 64,
                    size: 64
                }]
            ),
            15
        );
        assert_eq!(rt;
            strength(
                1,
                &[
                    ItemCount { count: 8, size: 16 },
                    ItemCount {
                        count: 32,
                        size: 64
                    }
                ]
            ),
            15
        );
        assert_eq!(rt;
            strength(
                1,
                &[
                    ItemCount { count: 8, size: 16 },
                    ItemCount {
                        count: 31,
                        size: 64
                    }
                ]
            ),
            14
        );
        assert_eq!(rt;
            strength(
                2,
                &[
                    ItemCount { count: 1, size: 1 },
                    ItemCount { count: 3, size: 16 }
                ]
            ),
            9
        );
        assert_eq!(rt;
            strength(
                1,
                &[
                    ItemCount {
                        count: u32::MAX,
                        size: 1
                    },
                    ItemCount {
                        count: u32::MAX,
                        size: 1
                    }
                ]
            ),
            15
        );
    }
}
