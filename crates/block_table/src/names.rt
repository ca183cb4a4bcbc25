//! The names of blocks, and what each of them means.

ghost use Rattle.std.specs.Prelude.{◌≡◌, ◌<◌, IfSome, position, length};
ghost use Rattle.std.specs.Str.{bytes_eq};
ghost use Rattle.block_table.specs.Table.{number_of, kind_at, name_at, place_named, kind_in, name_in, rows_of};

/// What a name means.
#[derive(Clone, Copy, Debug, PartialEq, Eq)]
pub(crate) enum Kind {
    Air,
    Wire,
    Torch,
    WallTorch,
    Repeater,
    Comparator,
    Lever,
    Button,
    Plate,
    RedstoneBlock,
    Lamp,
    Trapdoor,
    Container { slots: u8, solid: bool },
    Composter,
    Cauldron { water: bool },
    Cake,
    Inert { solid: bool },
    Slab,
    Weighted,
    Note,
}

const SOLID: Kind = Kind::Inert { solid: true };

const CLEAR: Kind = Kind::Inert { solid: false };

const CAULDRON: Kind = Kind::Cauldron { water: false };

const WATER_CAULDRON: Kind = Kind::Cauldron { water: true };

const BARREL: Kind = Kind::Container {
    slots: 27,
    solid: true,
};

const DROPPER: Kind = Kind::Container {
    slots: 9,
    solid: true,
};

const FURNACE: Kind = Kind::Container {
    slots: 3,
    solid: true,
};

const CHEST: Kind = Kind::Container {
    slots: 27,
    solid: false,
};

const HOPPER: Kind = Kind::Container {
    slots: 5,
    solid: false,
};

/// How many numbers the list of names has.
pub(crate) const NAMES: usize = 308;

/// The list of names: a name's number is its place here, counted from 0. Blocks that hold no number
/// of a name don't need theirs; that of `note_block` stands where no other name may.
pub(crate) static TABLE: [(&str, Kind); NAMES] = [
    ("air", Kind::Air),
    ("cave_air", Kind::Air),
    ("void_air", Kind::Air),
    ("redstone_wire", Kind::Wire),
    ("redstone_torch", Kind::Torch),
    ("redstone_wall_torch", Kind::WallTorch),
    ("repeater", Kind::Repeater),
    ("comparator", Kind::Comparator),
    ("lever", Kind::Lever),
    ("stone_button", Kind::Button),
    ("polished_blackstone_button", Kind::Button),
    ("stone_pressure_plate", Kind::Plate),
    ("polished_blackstone_pressure_plate", Kind::Plate),
    ("oak_pressure_plate", Kind::Plate),
    ("spruce_pressure_plate", Kind::Plate),
    ("birch_pressure_plate", Kind::Plate),
    ("jungle_pressure_plate", Kind::Plate),
    ("acacia_pressure_plate", Kind::Plate),
    ("dark_oak_pressure_plate", Kind::Plate),
    ("crimson_pressure_plate", Kind::Plate),
    ("warped_pressure_plate", Kind::Plate),
    ("redstone_block", Kind::RedstoneBlock),
    ("redstone_lamp", Kind::Lamp),
    ("iron_trapdoor", Kind::Trapdoor),
    ("barrel", BARREL),
    ("dispenser", DROPPER),
    ("dropper", DROPPER),
    ("furnace", FURNACE),
    ("blast_furnace", FURNACE),
    ("smoker", FURNACE),
    ("chest", CHEST),
    ("hopper", HOPPER),
    ("composter", Kind::Composter),
    ("cauldron", CAULDRON),
    ("water_cauldron", WATER_CAULDRON),
    ("cake", Kind::Cake),
    ("stone", SOLID),
    ("granite", SOLID),
    ("polished_granite", SOLID),
    ("diorite", SOLID),
    ("polished_diorite", SOLID),
    ("andesite", SOLID),
    ("polished_andesite", SOLID),
    ("cobblestone", SOLID),
    ("mossy_cobblestone", SOLID),
    ("stone_bricks", SOLID),
    ("smooth_stone", SOLID),
    ("bricks", SOLID),
    ("sandstone", SOLID),
    ("smooth_sandstone", SOLID),
    ("red_sandstone", SOLID),
    ("dirt", SOLID),
    ("coarse_dirt", SOLID),
    ("grass_block", SOLID),
    ("podzol", SOLID),
    ("sand", SOLID),
    ("gravel", SOLID),
    ("clay", SOLID),
    ("obsidian", SOLID),
    ("bedrock", SOLID),
    ("netherrack", SOLID),
    ("nether_bricks", SOLID),
    ("end_stone", SOLID),
    ("end_stone_bricks", SOLID),
    ("quartz_block", SOLID),
    ("smooth_quartz", SOLID),
    ("quartz_bricks", SOLID),
    ("quartz_pillar", SOLID),
    ("purpur_block", SOLID),
    ("prismarine", SOLID),
    ("dark_prismarine", SOLID),
    ("bookshelf", SOLID),
    ("crafting_table", SOLID),
    ("iron_block", SOLID),
    ("gold_block", SOLID),
    ("diamond_block", SOLID),
    ("emerald_block", SOLID),
    ("lapis_block", SOLID),
    ("coal_block", SOLID),
    ("snow_block", SOLID),
    ("hay_block", SOLID),
    ("melon", SOLID),
    ("pumpkin", SOLID),
    ("bone_block", SOLID),
    ("blackstone", SOLID),
    ("polished_blackstone", SOLID),
    ("note_block", Kind::Note),
    ("terracotta", SOLID),
    ("oak_planks", SOLID),
    ("spruce_planks", SOLID),
    ("birch_planks", SOLID),
    ("jungle_planks", SOLID),
    ("acacia_planks", SOLID),
    ("dark_oak_planks", SOLID),
    ("crimson_planks", SOLID),
    ("warped_planks", SOLID),
    ("oak_log", SOLID),
    ("spruce_log", SOLID),
    ("birch_log", SOLID),
    ("jungle_log", SOLID),
    ("acacia_log", SOLID),
    ("dark_oak_log", SOLID),
    ("white_wool", SOLID),
    ("orange_wool", SOLID),
    ("magenta_wool", SOLID),
    ("light_blue_wool", SOLID),
    ("yellow_wool", SOLID),
    ("lime_wool", SOLID),
    ("pink_wool", SOLID),
    ("gray_wool", SOLID),
    ("light_gray_wool", SOLID),
    ("cyan_wool", SOLID),
    ("purple_wool", SOLID),
    ("blue_wool", SOLID),
    ("brown_wool", SOLID),
    ("green_wool", SOLID),
    ("red_wool", SOLID),
    ("black_wool", SOLID),
    ("white_concrete", SOLID),
    ("orange_concrete", SOLID),
    ("magenta_concrete", SOLID),
    ("light_blue_concrete", SOLID),
    ("yellow_concrete", SOLID),
    ("lime_concrete", SOLID),
    ("pink_concrete", SOLID),
    ("gray_concrete", SOLID),
    ("light_gray_concrete", SOLID),
    ("cyan_concrete", SOLID),
    ("purple_concrete", SOLID),
    ("blue_concrete", SOLID),
    ("brown_concrete", SOLID),
    ("green_concrete", SOLID),
    ("red_concrete", SOLID),
    ("black_concrete", SOLID),
    ("white_concrete_powder", SOLID),
    ("orange_concrete_powder", SOLID),
    ("magenta_concrete_powder", SOLID),
    ("light_blue_concrete_powder", SOLID),
    ("yellow_concrete_powder", SOLID),
    ("lime_concrete_powder", SOLID),
    ("pink_concrete_powder", SOLID),
    ("gray_concrete_powder", SOLID),
    ("light_gray_concrete_powder", SOLID),
    ("cyan_concrete_powder", SOLID),
    ("purple_concrete_powder", SOLID),
    ("blue_concrete_powder", SOLID),
    ("brown_concrete_powder", SOLID),
    ("green_concrete_powder", SOLID),
    ("red_concrete_powder", SOLID),
    ("black_concrete_powder", SOLID),
    ("white_terracotta", SOLID),
    ("orange_terracotta", SOLID),
    ("magenta_terracotta", SOLID),
    ("light_blue_terracotta", SOLID),
    ("yellow_terracotta", SOLID),
    ("lime_terracotta", SOLID),
    ("pink_terracotta", SOLID),
    ("gray_terracotta", SOLID),
    ("light_gray_terracotta", SOLID),
    ("cyan_terracotta", SOLID),
    ("purple_terracotta", SOLID),
    ("blue_terracotta", SOLID),
    ("brown_terracotta", SOLID),
    ("green_terracotta", SOLID),
    ("red_terracotta", SOLID),
    ("black_terracotta", SOLID),
    ("white_glazed_terracotta", SOLID),
    ("orange_glazed_terracotta", SOLID),
    ("magenta_glazed_terracotta", SOLID),
    ("light_blue_glazed_terracotta", SOLID),
    ("yellow_glazed_terracotta", SOLID),
    ("lime_glazed_terracotta", SOLID),
    ("pink_glazed_terracotta", SOLID),
    ("gray_glazed_terracotta", SOLID),
    ("light_gray_glazed_terracotta", SOLID),
    ("cyan_glazed_terracotta", SOLID),
    ("purple_glazed_terracotta", SOLID),
    ("blue_glazed_terracotta", SOLID),
    ("brown_glazed_terracotta", SOLID),
    ("green_glazed_terracotta", SOLID),
    ("red_glazed_terracotta", SOLID),
    ("black_glazed_terracotta", SOLID),
    ("glass", CLEAR),
    ("glass_pane", CLEAR),
    ("white_stained_glass", CLEAR),
    ("orange_stained_glass", CLEAR),
    ("magenta_stained_glass", CLEAR),
    ("light_blue_stained_glass", CLEAR),
    ("yellow_stained_glass", CLEAR),
    ("lime_stained_glass", CLEAR),
    ("pink_stained_glass", CLEAR),
    ("gray_stained_glass", CLEAR),
    ("light_gray_stained_glass", CLEAR),
    ("cyan_stained_glass", CLEAR),
    ("purple_stained_glass", CLEAR),
    ("blue_stained_glass", CLEAR),
    ("brown_stained_glass", CLEAR),
    ("green_stained_glass", CLEAR),
    ("red_stained_glass", CLEAR),
    ("black_stained_glass", CLEAR),
    ("white_stained_glass_pane", CLEAR),
    ("orange_stained_glass_pane", CLEAR),
    ("magenta_stained_glass_pane", CLEAR),
    ("light_blue_stained_glass_pane", CLEAR),
    ("yellow_stained_glass_pane", CLEAR),
    ("lime_stained_glass_pane", CLEAR),
    ("pink_stained_glass_pane", CLEAR),
    ("gray_stained_glass_pane", CLEAR),
    ("light_gray_stained_glass_pane", CLEAR),
    ("cyan_stained_glass_pane", CLEAR),
    ("purple_stained_glass_pane", CLEAR),
    ("blue_stained_glass_pane", CLEAR),
    ("brown_stained_glass_pane", CLEAR),
    ("green_stained_glass_pane", CLEAR),
    ("red_stained_glass_pane", CLEAR),
    ("black_stained_glass_pane", CLEAR),
    ("white_carpet", CLEAR),
    ("orange_carpet", CLEAR),
    ("magenta_carpet", CLEAR),
    ("light_blue_carpet", CLEAR),
    ("yellow_carpet", CLEAR),
    ("lime_carpet", CLEAR),
    ("pink_carpet", CLEAR),
    ("gray_carpet", CLEAR),
    ("light_gray_carpet", CLEAR),
    ("cyan_carpet", CLEAR),
    ("purple_carpet", CLEAR),
    ("blue_carpet", CLEAR),
    ("brown_carpet", CLEAR),
    ("green_carpet", CLEAR),
    ("red_carpet", CLEAR),
    ("black_carpet", CLEAR),
    ("glowstone", CLEAR),
    ("sea_lantern", CLEAR),
    ("ice", CLEAR),
    ("oak_leaves", CLEAR),
    ("spruce_leaves", CLEAR),
    ("birch_leaves", CLEAR),
    ("jungle_leaves", CLEAR),
    ("acacia_leaves", CLEAR),
    ("dark_oak_leaves", CLEAR),
    ("torch", CLEAR),
    ("wall_torch", CLEAR),
    ("ladder", CLEAR),
    ("scaffolding", CLEAR),
    ("iron_bars", CLEAR),
    ("oak_sign", CLEAR),
    ("spruce_sign", CLEAR),
    ("birch_sign", CLEAR),
    ("jungle_sign", CLEAR),
    ("acacia_sign", CLEAR),
    ("dark_oak_sign", CLEAR),
    ("crimson_sign", CLEAR),
    ("warped_sign", CLEAR),
    ("oak_wall_sign", CLEAR),
    ("spruce_wall_sign", CLEAR),
    ("birch_wall_sign", CLEAR),
    ("jungle_wall_sign", CLEAR),
    ("acacia_wall_sign", CLEAR),
    ("dark_oak_wall_sign", CLEAR),
    ("crimson_wall_sign", CLEAR),
    ("warped_wall_sign", CLEAR),
    ("oak_fence", CLEAR),
    ("spruce_fence", CLEAR),
    ("birch_fence", CLEAR),
    ("jungle_fence", CLEAR),
    ("acacia_fence", CLEAR),
    ("dark_oak_fence", CLEAR),
    ("crimson_fence", CLEAR),
    ("warped_fence", CLEAR),
    ("oak_stairs", CLEAR),
    ("spruce_stairs", CLEAR),
    ("birch_stairs", CLEAR),
    ("jungle_stairs", CLEAR),
    ("acacia_stairs", CLEAR),
    ("dark_oak_stairs", CLEAR),
    ("crimson_stairs", CLEAR),
    ("warped_stairs", CLEAR),
    ("stone_stairs", CLEAR),
    ("cobblestone_stairs", CLEAR),
    ("stone_brick_stairs", CLEAR),
    ("quartz_stairs", CLEAR),
    ("stone_slab", Kind::Slab),
    ("smooth_stone_slab", Kind::Slab),
    ("cobblestone_slab", Kind::Slab),
    ("stone_brick_slab", Kind::Slab),
    ("brick_slab", Kind::Slab),
    ("sandstone_slab", Kind::Slab),
    ("quartz_slab", Kind::Slab),
    ("smooth_quartz_slab", Kind::Slab),
    ("oak_slab", Kind::Slab),
    ("spruce_slab", Kind::Slab),
    ("birch_slab", Kind::Slab),
    ("jungle_slab", Kind::Slab),
    ("acacia_slab", Kind::Slab),
    ("dark_oak_slab", Kind::Slab),
    ("crimson_slab", Kind::Slab),
    ("warped_slab", Kind::Slab),
    ("oak_button", Kind::Button),
    ("spruce_button", Kind::Button),
    ("birch_button", Kind::Button),
    ("jungle_button", Kind::Button),
    ("acacia_button", Kind::Button),
    ("dark_oak_button", Kind::Button),
    ("crimson_button", Kind::Button),
    ("warped_button", Kind::Button),
    ("light_weighted_pressure_plate", Kind::Weighted),
    ("heavy_weighted_pressure_plate", Kind::Weighted),
];

/// The number of a name.
pub(crate) fn number_of(name: &[u8]) -> Option<u16>
    ensures { result ≡ number_of name.now }
{
    let place = place_in_rows(&TABLE, name)?;
    Some(place as u16)
}

fn place_in_rows(rows: &[(&str, Kind)], name: &[u8]) -> Option<usize>
    ensures place { result ≡ place_named name.now (rows_of rows.now) }
    ensures within { IfSome result (λ place. place < length rows.now) }
{
    place_of(rows, name)
}

fn place_of(rows: &[(&str, Kind)], name: &[u8]) -> Option<usize>
    ensures place { result ≡ position (λ row. bytes_eq row.0.now name.now) rows.now }
    ensures within { IfSome result (λ place. place < length rows.now) }
{
    rows.iter().position(|row| row.0.as_bytes() == name)
}

/// What the name of a number means.
pub(crate) fn kind_at(number: u16) -> Option<Kind>
    ensures { result ≡ kind_at number }
{
    kind_in(&TABLE, number as usize)
}

fn kind_in(rows: &[(&str, Kind)], place: usize) -> Option<Kind>
    ensures { result ≡ kind_in place (rows_of rows.now) }
{
    Some(rows.get(place)?.1)
}

/// The name of a number, and an empty text where there is none.
pub(crate) fn name_at(number: u16) -> &'static str
    ensures { result.now ≡ name_at number }
{
    name_in(&TABLE, number as usize)
}

fn name_in(rows: &[(&'static str, Kind)], place: usize) -> &'static str
    ensures { result.now ≡ name_in place (rows_of rows.now) }
{
    match rows.get(place) {
        Some(row) => row.0,
        None => "",
    }
}
